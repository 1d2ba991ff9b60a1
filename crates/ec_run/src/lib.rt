// The top call of the volume: words, a volume file and a script in, the text of the script's run or a report of the
// bricks out, over the stores of the bricks.
//
// Promised, by the status: which of words, volume file, bricks and script was refused and why; that the log is the run
// of the lines that were obeyed, from what the stores held when they were opened; that its text is what was written, or
// a front part of it; what the stores hold, where they tell their records; and that a report is of what they hold.
#![tactic(auto)]

mod obeying;
mod playing;
mod reporting;
mod starting;
mod top;
mod volume;

pub use ec_play::{BricksWhy, ScriptWhy, Status};
pub use top::run;
