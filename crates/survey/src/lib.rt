// From a readings file to the text that is printed for it.
#![tactic(auto)]

mod draft;
mod kinds;
mod layered;
mod listed;
pub mod pave;
