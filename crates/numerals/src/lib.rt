// Whole numbers as the readings file writes them.
#![tactic(auto)]

pub mod cut;
pub mod read;
pub mod values;
