// The leaves: the contractors that readings are made of.
#![tactic(auto)]

pub mod arc;
mod bounds;
pub mod cone;
mod judged;
mod offset;
mod opposite;
pub mod plane_reading;
pub mod ring;
mod vector;
