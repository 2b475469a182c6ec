// A cone as a contractor of the plane.
ghost use Rattle.leaves.specs.Cones.{cone_set, cone_kept, cone_dropped};
ghost use Rattle.leaves.specs.ConeLaws.{cone_sound};

use crate::cone::Cone;
use crate::judged::judged;
use contractor::contractor::Contractor;
use plane::plane_box::PlaneBox;

impl Contractor for Cone {
    type Piece = PlaneBox;

    ghost set = { λ c n. cone_set c n };

    ghost kept = { λ c x. cone_kept c x };

    ghost dropped = { λ c x. cone_dropped c x };

    ghost sound = { cone_sound };

    fn keep(&self, piece: &PlaneBox) -> Option<PlaneBox> {
        judged(*self, self.turned(), piece, Cone::kept_run)
    }

    fn shed(&self, piece: &PlaneBox) -> Option<PlaneBox> {
        judged(*self, self.turned(), piece, Cone::shed_run)
    }
}
