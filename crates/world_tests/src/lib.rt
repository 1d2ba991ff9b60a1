// Tests of the world of a volume, by the lines of scripts and the texts of what comes of them.
#![tactic(auto)]

#[cfg(test)]
mod bench;
#[cfg(test)]
mod bricks;
#[cfg(test)]
mod clients;
#[cfg(test)]
mod many;
#[cfg(test)]
mod refusals;
#[cfg(test)]
mod rows;
#[cfg(test)]
mod stats;
