// What a domain is: pieces of ground made of numbered points, the maps over them, and their laws.
#![tactic(auto)]

pub mod domain;
pub mod refusal;
pub mod shown;
pub mod strip_slots;
pub mod strips;
pub mod sums;
