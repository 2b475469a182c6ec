// How a file is cut into lines, and a line into its key and its value.
ghost use Rattle.std.specs.Prelude.{◌≡◌, ℕ, true, false, ◌⊎◌, List, ◌++◌, MatchResult, ◌≢◌};
ghost use Rattle.domain.specs.Refusals.{code};
ghost use Rattle.readings.specs.Lines.{Begins};

use crate::line::Line;
use domain::refusal::Refusal;
use numerals::cut::cut;

// The first line of what is left of a file, and what comes after it.
pub(crate) fn first_line(rest: &[u8]) -> (Line<'_>, &[u8])
    ensures { Begins rest.now result.0.text.now result.0.ended result.1.now }
{
    match cut(rest, b'\n') {
        Some((text, after)) => (Line { text, ended: true }, after),
        None => (
            Line {
                text: rest,
                ended: false,
            },
            &rest[..0],
        ),
    }
}

impl<'a> Line<'a> {
    // What follows the key. Refused with 15 where the line does not begin with it, else with 16 where it is not ended.
    pub(crate) fn value(self, key: &[u8]) -> Result<&'a [u8], Refusal>
        ensures { MatchResult result (λ v. (self.entry.text.now ≡ key.now ++ v.now) × (self.entry.ended ≡ true)) (λ e. (((v : List ℕ) → self.entry.text.now ≢ key.now ++ v) × (code e ≡ 15)) ⊎ ((v : List ℕ) × (self.entry.text.now ≡ key.now ++ v) × (self.entry.ended ≡ false) × (code e ≡ 16))) }
    {
        let value = self.text.strip_prefix(key).ok_or(Refusal::KeyNotDue)?;
        if !self.ended {
            return Err(Refusal::Malformed);
        }
        Ok(value)
    }
}
