// Tests of the top call over sources, sinks and stores in memory, in a crate of their own: a crate that has tests is proved
// twice. What is wanted is worked out by hand from the rules of the script and the calls.
#![tactic(auto)]

#[cfg(test)]
mod banks;
#[cfg(test)]
mod faults;
#[cfg(test)]
mod kept;
#[cfg(test)]
mod many;
#[cfg(test)]
mod playing;
#[cfg(test)]
mod refusals;
#[cfg(test)]
mod scripts;
#[cfg(test)]
mod statuses;
