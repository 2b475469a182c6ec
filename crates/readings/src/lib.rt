// The readings file: what its lines mean, and how the first fault is told.
#![tactic(auto)]

mod body;
mod entries;
mod entry;
pub mod fault;
mod headers;
pub mod kind;
mod line;
mod lines;
mod naturals;
mod pieces;
pub mod read;
pub mod readings;
mod readings_calls;
pub mod request;
mod rings;
