// What a sheet is: its states, its turns, what they answer, and the laws that hold after every list of turns.
#![tactic(auto)]

pub mod answers;
mod class_places;
pub mod classes;
pub mod laws;
pub mod places;
pub mod records;
mod shown;
pub mod tallies;
pub mod turns;
