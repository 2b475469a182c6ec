// The columns or the rows that so many of a list of numbered boxes hold.
ghost use Rattle.std.specs.Prelude.{◌≤◌};
ghost use Rattle.plane.specs.Gathering.{numbered_at, FoundSpan};

use crate::span::Span;
use scan::depth::{Side, deep_run};
use scan::stretch::Stretch;

// The columns or the rows of boxes, each known by its number. The last column stands 12 binary places
// from the number's right end, the last row at the end, and the first of each 24 places before the last.
#[derive(Clone, Copy)]
pub(crate) struct Numbered {
    place: u32,
    ghost bounded: { place ≤ 12 },
}

impl Numbered {
    pub(crate) const COLUMNS: Numbered = Numbered { place: 12 };

    pub(crate) const ROWS: Numbered = Numbered { place: 0 };

    // From the first to the last column or row that at least `depth` of the numbered members hold.
    pub(crate) fn deep_span(&self, members: &[u64], depth: usize) -> Option<Span>
        ensures { FoundSpan (numbered_at self.now.place) members.now depth result }
    {
        deep_run(self, members, depth).and_then(Span::from_stretch)
    }
}

impl Side for Numbered {
    ghost extent = { λ side n. numbered_at side.place n };

    fn stretch(&self, member: u64) -> Stretch {
        Stretch {
            low: ((member >> (self.place + 24)) % 4096) as u32,
            high: ((member >> self.place) % 4096) as u32,
        }
    }
}
