// The readings of one kind of sheet, as a file has them: by what lines they are written, and by what value a start.
ghost use Rattle.std.specs.Prelude.{ℕ, Bool, List, Result as Outcome};
ghost use Rattle.readings.specs.Lines.{numbered};
ghost use Rattle.readings.specs.Requests.{Judges};

use crate::line::Line;
use domain::refusal::Refusal;

pub(crate) trait Entry: Copy {
    type Start: Drop;

    // What a value comes to as a start, and a line as a reading: itself, or the number that it is refused with.
    ghost starts: { List ℕ → Outcome Self.Start ℕ → Type 0 };

    ghost readings: { List ℕ → Bool → Outcome Self ℕ → Type 0 };

    fn start(value: &[u8]) -> Result<Self::Start, Refusal>
        ensures { starts value.now (numbered result) };

    fn reading(line: Line<'_>) -> Result<Self, Refusal>
        ensures { Judges readings line.entry result };
}
