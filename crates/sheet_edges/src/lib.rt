// Readings and sheets at their edges: tests alone.
#![tactic(auto)]

#[cfg(test)]
mod leaf_tests;
#[cfg(test)]
mod sheet_tests;
