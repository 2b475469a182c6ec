// A record of a piece. Labels count from 0, in the order in which records are made.
use crate::classes::Class;

#[derive(Clone, Copy, Debug, PartialEq, Eq)]
pub struct Record<P> {
    pub label: u32,
    pub class: Class,
    pub piece: P,
}
