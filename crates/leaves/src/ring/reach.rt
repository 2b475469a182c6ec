// The tests of a column of a ring, by a span of rows. The rows are the columns of the ring turned over.
ghost use Rattle.std.specs.Prelude.{◌≡◌, ◌+◌, min, not, ◌&&◌, nat_le, option_and_then};
ghost use Rattle.scan.specs.Live.{run};
ghost use Rattle.leaves.specs.Judged.{SameOnPlane};
ghost use Rattle.plane.specs.Spans.{long, spanned, stretch};
ghost use Rattle.leaves.specs.Rings.{square as square_of, distance as distance_of, nearest as nearest_of, farthest as farthest_of, keeps, sheds};

use crate::judged::live_span;
use crate::offset::{Offset, Square};
use crate::opposite::Opposite;
use crate::ring::Ring;
use plane::span::Span;
use scan::live::Live;
use scan::stretch::Stretch;

// Whether a column is live for keep: by the beacon's column, and by four squares, of the least and the greatest distance
// across and of the two radii.
#[derive(Clone, Copy)]
pub(crate) struct Reach {
    along: i16,
    near: Square,
    far: Square,
    inner: u32,
    outer: u32,
}

impl Live for Reach {
    ghost live = { λ t i. nat_le (square_of (distance_of t.along (min i 4095)) + t.near.value) t.outer && nat_le t.inner (square_of (distance_of t.along (min i 4095)) + t.far.value) };

    fn is_live(&self, index: u32) -> bool {
        let along = Offset::of(self.along, index).square();
        along.plus(self.near) <= self.outer && self.inner <= along.plus(self.far)
    }
}

impl Ring {
    // The test for keep.
    pub(crate) fn kept_by(self, rows: Span) -> Reach
        ensures { SameOnPlane (⟦<Reach as Live>⟧.live result) (keeps self.inner self.outer self.beacon.x self.beacon.y (stretch rows)) }
    {
        Reach {
            along: self.beacon.x,
            near: nearest(self.beacon.y, rows),
            far: farthest(self.beacon.y, rows),
            inner: square(self.inner),
            outer: square(self.outer),
        }
    }

    // The test for shed: a column all of whose points are of the ring is not live.
    pub(crate) fn shed_by(self, rows: Span) -> Opposite<Reach>
        ensures { SameOnPlane (λ i. not (⟦<Reach as Live>⟧.live result.0 i)) (sheds self.inner self.outer self.beacon.x self.beacon.y (stretch rows)) }
    {
        Opposite(Reach {
            along: self.beacon.x,
            near: farthest(self.beacon.y, rows),
            far: nearest(self.beacon.y, rows),
            inner: square(self.inner),
            outer: square(self.outer),
        })
    }

    // From the first to the last column that is live for keep, by a span of rows.
    pub(crate) fn kept_run(self, columns: Span, rows: Span) -> Option<Span>
        ensures { result ≡ option_and_then spanned (run (keeps self.inner self.outer self.beacon.x self.beacon.y (stretch rows)) columns.low (long columns)) }
    {
        live_span(&self.kept_by(rows), columns)
    }

    // From the first to the last one that is live for shed.
    pub(crate) fn shed_run(self, columns: Span, rows: Span) -> Option<Span>
        ensures { result ≡ option_and_then spanned (run (sheds self.inner self.outer self.beacon.x self.beacon.y (stretch rows)) columns.low (long columns)) }
    {
        live_span(&self.shed_by(rows), columns)
    }
}

// The square of the least distance over a span: that of the index nearest to the beacon. A number of the beacon and a span
// of the other side come together here and for cones: a struct of the two would stand for neither side.
fn nearest(beacon: i16, span: Span) -> Square
    ensures { result.value ≡ square_of (nearest_of beacon (stretch span)) }
{
    let Stretch { low, high } = Stretch::from(span);
    let at = i32::from(beacon).clamp(low as i32, high as i32);
    Offset::of(beacon, at as u32).square()
}

// The square of the greatest: that of one of its ends.
fn farthest(beacon: i16, span: Span) -> Square
    ensures { result.value ≡ square_of (farthest_of beacon (stretch span)) }
{
    let (low, high) = Offset::of_ends(beacon, span);
    Square {
        value: low.square().value.max(high.square().value),
    }
}

// The square of a radius.
fn square(radius: u16) -> u32
    ensures { result ≡ square_of radius }
{
    u32::from(radius) * u32::from(radius)
}
