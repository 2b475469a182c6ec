// The first fault of a readings file: why it is refused, and the number of the line, from 1 on, or 0 for the whole.
ghost use Rattle.std.specs.Prelude.{◌≡◌, Some, MatchResult};
ghost use Rattle.domain.specs.Refusals.{code};
ghost use Rattle.readings.specs.Faults.{fault_text};

use domain::refusal::Refusal;
use std::error::Error;
use std::fmt;

#[derive(Clone, Copy, PartialEq, Eq, Debug)]
pub struct Fault {
    pub refusal: Refusal,
    pub line: u32,
}

impl fmt::Display for Fault {
    ghost output = { λ f. Some (fault_text (code f.refusal) f.line) };

    fn fmt<W: fmt::Write>(&self, f: &mut fmt::Formatter<W>) -> fmt::Result {
        write!(f, "fault={},{}", self.refusal.code(), self.line)
    }
}

impl Error for Fault {}

// What is judged of a line: a refusal is a fault of that line.
pub(crate) fn on_line<X>(line: u32, judged: Result<X, Refusal>) -> Result<X, Fault>
    ensures { MatchResult judged (λ x. result ≡ Ok x) (λ e. result ≡ Err (record { refusal = e; line = line })) }
{
    judged.map_err(|refusal| Fault { refusal, line })
}
