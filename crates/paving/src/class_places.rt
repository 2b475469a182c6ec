// Where a point on the roll is, by the class of its record.
ghost use Rattle.std.specs.Prelude.{◌≡◌};
ghost use Rattle.paving.specs.Turns.{place_of};

use crate::classes::Class;
use crate::places::Place;

impl From<Class> for Place {
    ghost from_gives = { λ class place. place ≡ place_of class };

    fn from(class: Class) -> Place {
        match class {
            Class::Inside => Place::Inside,
            Class::Outside => Place::Outside,
            Class::Undecided => Place::Undecided,
        }
    }
}
