// How a cone is made.
ghost use Rattle.std.specs.Prelude.{Decides};
ghost use Rattle.leaves.specs.Cones.{ConeMade, HasNumbers, IsOpen};

use crate::cone::Cone;
use crate::vector::{Beacon, Direction};
use domain::refusal::Refusal;

impl Cone {
    // The cone from the direction u to the direction v. Refused with 3 if a number of the beacon is not from -16384 to
    // 16383 or one of a direction not from -2048 to 2047, else with 5 unless ux·vy - uy·vx is above 0.
    pub fn new(bx: i32, by: i32, ux: i32, uy: i32, vx: i32, vy: i32) -> Result<Cone, Refusal>
        ensures { ConeMade bx by ux uy vx vy result }
    {
        let beacon = Beacon::new(bx, by)?;
        let u = Direction::new(ux, uy)?;
        let v = Direction::new(vx, vy)?;
        if !opens(u, v) {
            return Err(Refusal::BadCone);
        }
        Ok(Cone { beacon, u, v })
    }

    // The cone turned over the line of equal columns and rows: its columns are this one's rows.
    pub(crate) fn turned(self) -> Cone
        ensures { HasNumbers self.beacon.y self.beacon.x self.v.y self.v.x self.u.y self.u.x result }
    {
        Cone {
            beacon: self.beacon.turned(),
            u: self.v.turned(),
            v: self.u.turned(),
        }
    }
}

// Whether v lies counterclockwise of u, by less than half a turn.
fn opens(u: Direction, v: Direction) -> bool
    ensures { Decides result (IsOpen u.x u.y v.x v.y) }
{
    i32::from(u.x) * i32::from(v.y) - i32::from(u.y) * i32::from(v.x) > 0
}
