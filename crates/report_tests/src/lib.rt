// Tests of the commands `info` and `check` over the stores that a script left, in a crate of their own: a crate that
// has tests is proved twice. What is wanted is worked out by hand from the rules of the calls and the reports.
#![tactic(auto)]

#[cfg(test)]
mod faults;
#[cfg(test)]
mod left;
#[cfg(test)]
mod reports;
#[cfg(test)]
mod running;
#[cfg(test)]
mod words;
