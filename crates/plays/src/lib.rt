// Lists of turns, played on a sheet over one contractor and over two.
#![tactic(auto)]

pub mod both_plays;
pub mod lengths;
pub mod numbers;
pub mod plays;
pub mod same_answers;
