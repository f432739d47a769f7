// What the command `llwybrenu` does without the engine: the command that its words make, the files that they name, a refusal in words, a strip's words.
// It stands in a crate of its own, so that its check waits for no run.
#![tactic(auto)]

pub mod arguments;
pub mod commands;
pub mod listing;
pub mod refusals;
