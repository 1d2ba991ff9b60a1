// What a log is a run of, and what its commits make: the definitions that the promises of the volume speak of.
//
// Nothing of it runs. Its laws stand on functions that do nothing, for the proofs that stand on them.
#![tactic(auto)]

mod laws;

pub use laws::{
    entry_laws, flat_laws, past_laws, run_laws, start_laws, story_laws, worked_examples,
    worked_names, worked_run, worked_states, worked_steps,
};
