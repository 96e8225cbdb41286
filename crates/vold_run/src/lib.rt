//! A run: a script's lines are done on a Book, and its journal and its devices are written; and what the program makes
//! of its words and of a run's end.
#![tactic(auto)]

mod input;
mod laws;
mod lines;
mod output;
mod program;
mod rounds;
mod runs;

pub use laws::law_of_plans;
pub use program::{WordsFault, asked_words, exit_number};
pub use runs::run;

#[cfg(test)]
mod tests;
