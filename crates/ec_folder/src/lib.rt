// The edge to real files and streams: sources and sinks over the readers and writers of std, and a store of a brick's
// records in a folder.
//
// Promised: a count of faults that rises with each call that fails, and with each write that takes nothing; what every
// store owes, as the bound of a size and the order of a page; and the lines of heads and names, which are read only as
// they are written. Not promised: what is read and where it is written. They tell nothing of it, and that a folder gives
// back what was put into it, and that nobody else writes there, is taken for granted.
#![tactic(auto)]

mod fault;
mod file_sink;
mod file_source;
mod files;
mod folder;
mod folder_store;
mod head_text;
mod id_text;
mod kind_text;
mod name_text;
mod paths;
#[cfg(test)]
mod tests;

pub use file_sink::FileSink;
pub use file_source::{FileSource, open};
pub use folder_store::FolderStore;
