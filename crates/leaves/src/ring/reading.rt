// A ring as a contractor of the plane.
ghost use Rattle.leaves.specs.Rings.{ring_set, ring_kept, ring_dropped};
ghost use Rattle.leaves.specs.RingLaws.{ring_sound};

use crate::judged::judged;
use crate::ring::Ring;
use contractor::contractor::Contractor;
use plane::plane_box::PlaneBox;

impl Contractor for Ring {
    type Piece = PlaneBox;

    ghost set = { λ r n. ring_set r n };

    ghost kept = { λ r x. ring_kept r x };

    ghost dropped = { λ r x. ring_dropped r x };

    ghost sound = { ring_sound };

    fn keep(&self, piece: &PlaneBox) -> Option<PlaneBox> {
        judged(*self, self.turned(), piece, Ring::kept_run)
    }

    fn shed(&self, piece: &PlaneBox) -> Option<PlaneBox> {
        judged(*self, self.turned(), piece, Ring::shed_run)
    }
}
