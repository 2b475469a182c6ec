// A box as text: its first column and row, then its last.
ghost use Rattle.std.specs.Prelude.{◌++◌, Some, codes, decimal};

use crate::plane_box::PlaneBox;
use std::fmt;

impl fmt::Display for PlaneBox {
    ghost output = { λ b. Some (decimal b.columns.low ++ (codes "," ++ (decimal b.rows.low ++ (codes "," ++ (decimal b.columns.high ++ (codes "," ++ decimal b.rows.high)))))) };

    fn fmt<W: fmt::Write>(&self, f: &mut fmt::Formatter<W>) -> fmt::Result {
        write!(f, "{},{},{},{}", self.x0(), self.y0(), self.x1(), self.y1())
    }
}
