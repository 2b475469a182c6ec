// What a contractor is: a set of points and two maps over pieces, their laws, and the layers that join contractors.
#![tactic(auto)]

pub mod contractor;
pub mod layers;
