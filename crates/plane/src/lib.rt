// The plane: 4,096 columns by 4,096 rows of points, and its boxes.
#![tactic(auto)]

pub mod plane_box;
pub mod span;
