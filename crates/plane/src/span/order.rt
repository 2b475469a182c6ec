// How spans lie to each other and to an index.
ghost use Rattle.std.specs.Prelude.{◌≡◌, min, max};
ghost use Rattle.scan.specs.Depth.{covers};
ghost use Rattle.plane.specs.Boxes.{lies_in};
ghost use Rattle.plane.specs.Spans.{HasEnds, long, stretch as stretch_of};

use crate::span::Span;
use scan::depth::covers_index;
use scan::stretch::Stretch;

impl Span {
    // How many columns or rows it has.
    pub(crate) fn len(&self) -> u32
        ensures { result ≡ long self.now }
    {
        u32::from(self.high - self.low) + 1
    }

    pub(crate) fn holds(&self, index: u32) -> bool
        ensures { result ≡ covers (stretch_of self.now) index }
    {
        covers_index(Stretch::from(*self), index)
    }

    pub(crate) fn is_within(&self, outer: &Span) -> bool
        ensures { result ≡ lies_in (stretch_of self.now) (stretch_of outer.now) }
    {
        outer.low <= self.low && self.high <= outer.high
    }

    // The smallest span that holds both.
    pub(crate) fn hull(&self, other: &Span) -> Span
        ensures { HasEnds (min self.now.low other.now.low) (max self.now.high other.now.high) result }
    {
        Span {
            low: self.low.min(other.low),
            high: self.high.max(other.high),
        }
    }
}
