// What is told where the lists of turns and of answers differ in length.
ghost use Rattle.std.specs.Prelude.{Some, codes};

use std::error::Error;
use std::fmt;

// There are not as many places for answers as turns.
#[derive(Clone, Copy, Debug, PartialEq, Eq)]
pub struct LengthsDiffer;

impl fmt::Display for LengthsDiffer {
    ghost output = { λ _. Some (codes "not as many answers as turns") };

    fn fmt<W: fmt::Write>(&self, f: &mut fmt::Formatter<W>) -> fmt::Result {
        write!(f, "not as many answers as turns")
    }
}

impl Error for LengthsDiffer {}
