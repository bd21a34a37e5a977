// Tests of reports: tables of files with the texts that the rules give for them, worked by hand.
#![tactic(auto)]

#[cfg(test)]
mod reports;
