// A class as text.
ghost use Rattle.std.specs.Prelude.{Some};
ghost use Rattle.paving.specs.Names.{class_name};

use crate::classes::Class;
use std::fmt;

impl fmt::Display for Class {
    ghost output = { λ c. Some (class_name c) };

    fn fmt<W: fmt::Write>(&self, f: &mut fmt::Formatter<W>) -> fmt::Result {
        match self {
            Class::Inside => write!(f, "in"),
            Class::Outside => write!(f, "out"),
            Class::Undecided => write!(f, "und"),
        }
    }
}
