// A square of the plane, of which a smaller one has been searched.
use crate::remainder::{judge, report};
use plane::plane_box::PlaneBox;

pub(crate) fn run(rt: &impl Print) -> anyhow::Result<()> {
    let square = PlaneBox::new(100, 200, 163, 263)?;
    let searched = PlaneBox::new(110, 220, 141, 251)?;
    report(rt, &square, &searched)?;
    judge(rt, "0,0,4095,4095", PlaneBox::new(0, 0, 4095, 4095))?;
    judge(rt, "0,0,4096,0", PlaneBox::new(0, 0, 4096, 0))
}
