// The words of the command line, read as one simple command of `clap`.
//
// Promised: what the words order is what the parser of command lines finds in them, where it takes them, and where it
// takes them not they order nothing. Nothing is printed: help that is asked for is no order.
#![tactic(auto)]

mod command;

pub use command::{Command, WordsFault, command_of};

#[cfg(test)]
mod tests;
