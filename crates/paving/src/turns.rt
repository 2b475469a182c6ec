// A turn of a planner at a sheet.
#[derive(Clone, Copy, Debug, PartialEq, Eq)]
pub enum Turn {
    Step,
    // At most so many steps.
    Run(u32),
    Take,
    // Where is the point of this number?
    Find(u32),
    Tally,
}
