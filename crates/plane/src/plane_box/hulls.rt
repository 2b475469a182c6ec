// The smallest box that holds two others.
ghost use Rattle.std.specs.Prelude.{◌≡◌, min, max};
ghost use Rattle.plane.specs.declared.plane_box.PlaneBox.{PlaneBox as Boxed};
ghost use Rattle.plane.specs.Boxes.{HasNumbers, span as span_of};

use crate::plane_box::PlaneBox;

impl PlaneBox {
    // The smallest box that holds both.
    #[tactic(auto, using(crate::specs::Ends::span_is))]
    fn hull(&self, other: &PlaneBox) -> PlaneBox
        ensures { HasNumbers (min self.now.columns.low other.now.columns.low) (min self.now.rows.low other.now.rows.low) (max self.now.columns.high other.now.columns.high) (max self.now.rows.high other.now.rows.high) result }
    {
        PlaneBox {
            columns: self.columns.hull(&other.columns),
            rows: self.rows.hull(&other.rows),
        }
    }

    // The smallest box that holds two, either of which may be nothing.
    pub(crate) fn enclosing(one: Option<PlaneBox>, other: Option<PlaneBox>) -> Option<PlaneBox>
        ensures { (x : Boxed) → result ≡ span_of x one other }
    {
        match (one, other) {
            (Some(first), Some(second)) => Some(first.hull(&second)),
            _ => one.or(other),
        }
    }
}
