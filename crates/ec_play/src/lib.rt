// The lines of a script over anything that obeys events, and the text of what comes of them.
//
// What a script is played on is a trait, so that lines, texts and ends are proved once, for whatever obeys the events. The
// world of a volume does.
//
// Promised of a script that is played, by the status: which lines were obeyed and what events they order; that the log is
// that of these events and a run, and the stores hold what it leaves, where they tell their records; that the text of the
// log and of the calls without an answer is what was written, or a front part of it; and why the next line isn't obeyed.
#![tactic(auto)]

mod obeying;
mod playing;
mod reader;
mod split;
mod stage;
mod status;
mod texts;
mod world;
mod writer;

pub use obeying::{Stop, obey};
pub use playing::play;
pub use reader::{LONGEST, LineReader, MOST_LINES, ReadError};
pub use stage::{Means, Stage};
pub use status::{BricksWhy, ScriptWhy, Status};
pub use texts::{write_entries, write_open};
pub use writer::{WriteError, write_all};
