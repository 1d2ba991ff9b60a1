// Tests of a brick: its requests over a store, its opening, its root, and writes that are cut short.
#![tactic(auto)]

#[cfg(test)]
mod opening;
#[cfg(test)]
mod records;
#[cfg(test)]
mod roots;
#[cfg(test)]
mod rows;
#[cfg(test)]
mod tears;
