// Searching and counting over ranges of indices: what every domain and every leaf is made of.
#![tactic(auto)]

pub mod depth;
pub mod live;
pub mod powers;
pub mod stretch;
