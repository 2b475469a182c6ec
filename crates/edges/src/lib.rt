// Tests at the edges, and a tiny domain that shows how little the laws ask.
#![tactic(auto)]

#[cfg(test)]
mod dial_tests;
#[cfg(test)]
mod plane_tests;
pub mod rail;
#[cfg(test)]
mod rail_tests;
pub mod rails;
#[cfg(test)]
mod refusals;
