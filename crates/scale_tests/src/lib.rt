// Tests of the scales: each limit and one step beyond, numbers beyond the limits, and lists out of order.
#![tactic(auto)]

#[cfg(test)]
mod amounts;
#[cfg(test)]
mod counts;
#[cfg(test)]
mod pairs;
#[cfg(test)]
mod ties;
