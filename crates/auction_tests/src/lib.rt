// Tests of totals, appraisals, awards and charges: tables of small sales and many made ones against a brute force over
// all sets of bids, the worked sales of the rules, the refusals, the largest sales, and comparisons of two sales.
#![tactic(auto)]

#[cfg(test)]
mod agreement;
#[cfg(test)]
mod brute_force;
#[cfg(test)]
mod comparisons;
#[cfg(test)]
mod limits;
#[cfg(test)]
mod made_sales;
#[cfg(test)]
mod opening;
#[cfg(test)]
mod refusals;
#[cfg(test)]
mod small_sales;
#[cfg(test)]
mod worked_sales;
