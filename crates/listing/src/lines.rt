// The lines of a listing, written to a text.
ghost use Rattle.std.specs.Prelude.{◌≡◌, ℕ, List, ◌++◌, string_bytes, OnOk};
ghost use Rattle.listing.specs.Lines.{Shown, record_line, sum_line};

use paving::records::Record;
use paving::tallies::Points;
use std::alloc::AllocError;
use std::fmt;

// `CLASS=LABEL,PIECE`
pub(crate) fn write_record<P: fmt::Display>(
    text: &mut String,
    record: &Record<P>,
) -> Result<(), AllocError>
    ensures { (shown : P → List ℕ) → Shown P.Display.output shown → OnOk result (string_bytes text.new ≡ string_bytes text.old ++ record_line shown «record».now) }
{
    writeln!(text, "{}={},{}", record.class, record.label, record.piece)
}

// `sum=INSIDE,OUTSIDE,UNDECIDED,STEPS`
pub(crate) fn write_sum(text: &mut String, points: Points, steps: u32) -> Result<(), AllocError>
    ensures { OnOk result (string_bytes text.new ≡ string_bytes text.old ++ sum_line points steps) }
{
    writeln!(
        text,
        "sum={},{},{},{steps}",
        points.inside, points.outside, points.undecided
    )
}
