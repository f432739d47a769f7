// The plain runner of a rule book.
#![tactic(auto)]

mod atoms;
mod firing;
mod first_atom;
mod homes;
mod lists;
mod look;
mod others;
mod rules;
pub mod run;
mod search;
mod tests;
