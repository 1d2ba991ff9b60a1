// The volume file: the text that names a volume's bricks and its options, read and printed.
//
// Promised: what is read is in the grammar and has its meaning, what is refused isn't, and the fault is the first one,
// with its line. What is printed of a volume is read as that volume. A volume that is read has as many different bricks
// as its geometry says. Not promised: that there is memory, nor the time, which is linear in the file but for the
// logarithm of the number of names where it is asked whether one comes twice.
#![tactic(auto)]

mod fault;
mod laws;
mod lines;
mod number;
mod options;
mod printer;
mod reader;
mod section;
mod state;
mod volume;

pub use fault::VolumeFault;
pub use laws::volume_file_laws;
pub use printer::print;
pub use reader::read;
pub use volume::{BlobList, Kernel, Volume};

#[cfg(test)]
mod tests;
