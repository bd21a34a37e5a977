// Tests of the line reader and of reading whole files: tables of files with answers worked by hand.
#![tactic(auto)]

#[cfg(test)]
mod accepted;
#[cfg(test)]
mod limits;
#[cfg(test)]
mod line_reader;
#[cfg(test)]
mod refused;
