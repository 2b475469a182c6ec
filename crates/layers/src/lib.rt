// Layers: contractors made of others.
#![tactic(auto)]

pub mod both;
pub mod either;
pub mod fixed;
pub mod not;
pub mod relaxed;
