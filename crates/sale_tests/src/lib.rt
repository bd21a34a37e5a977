// Tests of sales: tables of calls with answers worked by hand.
#![tactic(auto)]

#[cfg(test)]
mod answers;
#[cfg(test)]
mod limits;
#[cfg(test)]
mod loads;
#[cfg(test)]
mod masks;
#[cfg(test)]
mod runs;
