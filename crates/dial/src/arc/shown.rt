// An arc as text: its start and its length.
ghost use Rattle.std.specs.Prelude.{◌++◌, Some, codes, decimal};

use crate::arc::Arc;
use std::fmt;

impl fmt::Display for Arc {
    ghost output = { λ a. Some (decimal a.start ++ (codes "," ++ decimal a.len)) };

    fn fmt<W: fmt::Write>(&self, f: &mut fmt::Formatter<W>) -> fmt::Result {
        let start = self.start;
        let len = self.len;
        write!(f, "{start},{len}")
    }
}
