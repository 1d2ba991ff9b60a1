// Tests of the calls on names, which cross the crates of calls.
#![tactic(auto)]

#[cfg(test)]
mod heads;
#[cfg(test)]
mod readdir;
#[cfg(test)]
mod unlink;
