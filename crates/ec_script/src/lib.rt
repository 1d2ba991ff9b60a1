// The lines of a script: what each orders, and the text of an event; and the scripts that a generator makes.
//
// Promised: what is read is in the grammar of `specs/Lines`, what is refused isn't, and the fault is the first one, with
// its place. What is printed of an event that a line can order is read as that event. The generator gives the events of
// `specs/Generator`, one after the other and no others; where there is no memory it stands where it was. Not promised:
// that there is memory, nor the time, which is linear in the line.
#![tactic(auto)]

mod bricks;
mod calls;
mod data;
mod draws;
mod events;
mod fault;
mod form;
mod generator;
mod line;
mod numbers;
mod orders;
mod printer;
mod remaining;
mod rounds;
#[cfg(test)]
mod tests;
mod word;
mod words;

pub use fault::LineFault;
pub use generator::Generator;
pub use line::read_line;
pub use numbers::number;
pub use printer::print;
