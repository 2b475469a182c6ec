// A sheet: it paves a start piece, turn by turn.
#![tactic(auto)]

pub mod cut;
mod cutting;
mod finding;
pub mod grain;
pub mod pile;
mod pile_calls;
mod playing;
mod record;
pub mod roll;
mod roll_calls;
mod running;
pub mod sheet;
mod stepping;
pub mod store;
mod store_calls;
mod taking;
mod tallying;
