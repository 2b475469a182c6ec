// The tests of a column of a cone, by a span of rows. The rows are the columns of the cone turned over.
ghost use Rattle.std.specs.Prelude.{◌≡◌, min, not, ◌&&◌, pos, ◌-ℤ◌, ◌*ℤ◌, int_le, option_and_then};
ghost use Rattle.scan.specs.Live.{run};
ghost use Rattle.plane.specs.Spans.{long, spanned, stretch};
ghost use Rattle.leaves.specs.Cones.{offset as offset_of, keeps, sheds, most, fewest};
ghost use Rattle.leaves.specs.Judged.{SameOnPlane};

use crate::cone::Cone;
use crate::judged::live_span;
use crate::offset::{Offset, Product};
use crate::opposite::Opposite;
use crate::vector::Direction;
use plane::span::Span;
use scan::live::Live;

// Whether a column is live for keep: `first` and `second` are the extremes of the products of u and of v over the rows.
#[derive(Clone, Copy)]
pub(crate) struct Slopes {
    cone: Cone,
    first: Product,
    second: Product,
}

impl Slopes {
    // The first product sum.
    #[tactic(auto, using(std::proofs::lemmas::Int::wraps))]
    fn ahead(&self, index: u32) -> i32
        ensures { result ≡ self.now.first.value -ℤ self.now.cone.u.y *ℤ offset_of self.now.cone.beacon.x (min index 4095) }
    {
        self.first
            .minus(Offset::of(self.cone.beacon.x, index).times(self.cone.u.y))
    }

    // The second.
    #[tactic(auto, using(std::proofs::lemmas::Int::wraps))]
    fn behind(&self, index: u32) -> i32
        ensures { result ≡ self.now.cone.v.y *ℤ offset_of self.now.cone.beacon.x (min index 4095) -ℤ self.now.second.value }
    {
        Offset::of(self.cone.beacon.x, index)
            .times(self.cone.v.y)
            .minus(self.second)
    }
}

impl Live for Slopes {
    ghost live = { λ t i. int_le (pos 0) (t.first.value -ℤ t.cone.u.y *ℤ offset_of t.cone.beacon.x (min i 4095)) && int_le (pos 0) (t.cone.v.y *ℤ offset_of t.cone.beacon.x (min i 4095) -ℤ t.second.value) };

    fn is_live(&self, index: u32) -> bool {
        self.ahead(index) >= 0 && self.behind(index) >= 0
    }
}

impl Cone {
    // The test for keep: by the greatest value of each product sum.
    pub(crate) fn kept_by(self, rows: Span) -> Slopes
        ensures { SameOnPlane (⟦<Slopes as Live>⟧.live result) (keeps self.u.x self.u.y self.v.y self.v.x self.beacon.x self.beacon.y (stretch rows)) }
    {
        Slopes {
            cone: self,
            first: extremes(self.u, self.beacon.y, rows).1,
            second: extremes(self.v, self.beacon.y, rows).0,
        }
    }

    // The test for shed: by the least value of each, a column is live where it would not be kept.
    pub(crate) fn shed_by(self, rows: Span) -> Opposite<Slopes>
        ensures { SameOnPlane (λ i. not (⟦<Slopes as Live>⟧.live result.0 i)) (sheds self.u.x self.u.y self.v.y self.v.x self.beacon.x self.beacon.y (stretch rows)) }
    {
        Opposite(Slopes {
            cone: self,
            first: extremes(self.u, self.beacon.y, rows).0,
            second: extremes(self.v, self.beacon.y, rows).1,
        })
    }

    // From the first to the last column that is live for keep, by a span of rows.
    pub(crate) fn kept_run(self, columns: Span, rows: Span) -> Option<Span>
        ensures { result ≡ option_and_then spanned (run (keeps self.u.x self.u.y self.v.y self.v.x self.beacon.x self.beacon.y (stretch rows)) columns.low (long columns)) }
    {
        live_span(&self.kept_by(rows), columns)
    }

    // From the first to the last one that is live for shed.
    pub(crate) fn shed_run(self, columns: Span, rows: Span) -> Option<Span>
        ensures { result ≡ option_and_then spanned (run (sheds self.u.x self.u.y self.v.y self.v.x self.beacon.x self.beacon.y (stretch rows)) columns.low (long columns)) }
    {
        live_span(&self.shed_by(rows), columns)
    }
}

// The least and the greatest product of a direction's columns and an offset from a beacon, over a span. A product rises
// or falls all along, so that the ends have them.
fn extremes(direction: Direction, beacon: i16, span: Span) -> (Product, Product)
    ensures least { result.0.value ≡ fewest direction.x beacon (stretch span) }
    ensures greatest { result.1.value ≡ most direction.x beacon (stretch span) }
{
    let (low, high) = Offset::of_ends(beacon, span);
    let (one, other) = (low.times(direction.x).value, high.times(direction.x).value);
    let least = Product {
        value: one.min(other),
    };
    let greatest = Product {
        value: one.max(other),
    };
    (least, greatest)
}
