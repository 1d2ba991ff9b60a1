// What the commands `info` and `check` write of the bricks of a volume.
//
// Promised: `info_text` has a line for each gfid of each brick's index, and `check_text` one for each gfid of which a brick
// has a record, as `specs/Info` and `specs/Records` say it of the indexes and of the records; the stores are only read,
// and a store's fault is answered only where that very store counted it. Where a store doesn't tell what it keeps nothing
// is said of the text, but that it comes to an end.
#![tactic(auto)]

mod check;
mod fault;
mod found;
mod heads;
mod info;
#[cfg(test)]
mod tests;
mod walk;
mod words;

pub use check::check_text;
pub use fault::CheckFault;
pub use info::info_text;
