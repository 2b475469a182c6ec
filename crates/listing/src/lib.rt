// The text that is printed for a paved sheet: a line for each record, and one with the sums.
#![tactic(auto)]

mod lines;
pub mod list;
mod rounds;
