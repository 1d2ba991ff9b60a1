// What the volume stands on outside: sources and sinks of bytes, and stores of the records of a brick, each with its
// form in memory.
//
// Promised: what each call gives and keeps, where the outside tells its content; a fault is answered only where the
// count of faults of that very object rose; and the forms in memory tell all and fail exactly at the calls that they
// were made to fail at. Not promised: when a call finds no memory. Nothing has changed after it.
#![tactic(auto)]

mod calls;
mod chunks;
mod ends;
mod fails;
mod mem_sink;
mod mem_source;
mod mem_store;
mod memory;
mod names;
mod records;
mod store;
#[cfg(test)]
mod tests;

pub use ends::{Failed, Sink, SinkFault, Source};
pub use fails::{Fail, FailList, Method};
pub use mem_sink::MemSink;
pub use mem_source::MemSource;
pub use mem_store::MemStore;
pub use names::{page, put_names, set_name};
pub use store::{BrickStore, StoreFault};
