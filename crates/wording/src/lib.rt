// The texts that the command `llwybrenu` adds to document 01's numbers. They stand in a crate of their own, apart from the engine, so that their check
// waits for no run.
#![tactic(auto)]

pub mod refusals;
pub mod usage;
