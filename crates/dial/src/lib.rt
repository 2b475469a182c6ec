// The dial: 3,600 points in a ring, and its arcs.
#![tactic(auto)]

pub mod arc;
