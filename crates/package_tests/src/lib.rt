// Tests of the kinds of package and of the search for a place, as tables. Expected values are worked from the rules by hand.
#![tactic(auto)]

#[cfg(test)]
mod kinds;
#[cfg(test)]
mod places;
