// The counts of a sheet.
#[derive(Clone, Copy, Debug, Default, PartialEq, Eq)]
pub struct Points {
    pub inside: u64,
    pub outside: u64,
    pub undecided: u64,
}

#[derive(Clone, Copy, Debug, PartialEq, Eq)]
pub struct Tally {
    pub waiting: u64,
    pub roll: Points,
    pub taken: Points,
    pub steps: u32,
    pub next_label: u32,
}
