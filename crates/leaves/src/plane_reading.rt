// A reading of the plane: a ring or a cone.
ghost use Rattle.std.specs.Prelude.{◌≡◌};
ghost use Rattle.leaves.specs.Readings.{reading_set, reading_kept, reading_dropped};
ghost use Rattle.leaves.specs.declared.plane_reading.PlaneReading.TheVariants.{Ring, Cone};
ghost use Rattle.leaves.specs.ConeLaws.{cone_sound};
ghost use Rattle.leaves.specs.RingLaws.{ring_sound};

use crate::cone::Cone;
use crate::ring::Ring;
use contractor::contractor::Contractor;
use plane::plane_box::PlaneBox;

#[derive(Clone, Copy)]
pub enum PlaneReading {
    Ring(Ring),
    Cone(Cone),
}

impl From<Ring> for PlaneReading {
    ghost from_gives = { λ ring reading. reading ≡ Ring ring };

    fn from(ring: Ring) -> Self {
        Self::Ring(ring)
    }
}

impl From<Cone> for PlaneReading {
    ghost from_gives = { λ cone reading. reading ≡ Cone cone };

    fn from(cone: Cone) -> Self {
        Self::Cone(cone)
    }
}

// Each of the two calls is one match. One text for both would hand out a `dyn`, which `rt ci` refuses, or take closures.
impl Contractor for PlaneReading {
    type Piece = PlaneBox;

    ghost set = { λ r n. reading_set r n };

    ghost kept = { λ r x. reading_kept r x };

    ghost dropped = { λ r x. reading_dropped r x };

    ghost sound = { elim [ Ring r ↦ ring_sound r | Cone c ↦ cone_sound c ] };

    fn keep(&self, piece: &PlaneBox) -> Option<PlaneBox> {
        match self {
            PlaneReading::Ring(ring) => ring.keep(piece),
            PlaneReading::Cone(cone) => cone.keep(piece),
        }
    }

    fn shed(&self, piece: &PlaneBox) -> Option<PlaneBox> {
        match self {
            PlaneReading::Ring(ring) => ring.shed(piece),
            PlaneReading::Cone(cone) => cone.shed(piece),
        }
    }
}
