// A ship has two rails, each a point: port is 0, starboard is 1. A piece is one of them, or both.
#[derive(Clone, Copy, PartialEq, Eq)]
pub enum Rail {
    Port = 0,
    Starboard = 1,
    Both = 2,
}
