// A watch circle of compass bearings, in tenths of a degree.
use crate::remainder::{judge, report};
use dial::arc::Arc;

// From west by north to east, of which the stretch on both sides of north has been searched.
pub(crate) fn run(rt: &impl Print) -> anyhow::Result<()> {
    let circle = Arc::new(2700, 1800)?;
    let searched = Arc::new(3500, 300)?;
    report(rt, &circle, &searched)?;
    judge(rt, "3599,3600", Arc::new(3599, 3600))?;
    judge(rt, "0,0", Arc::new(0, 0))
}
