// The members of a gathering, as stretches of an arc's own order.
ghost use Rattle.dial.specs.Arcs.{extent};

use crate::arc::Arc;
use domain::domain::Domain;
use scan::depth::Side;
use scan::stretch::Stretch;

// An arc's own order is the side along which its sub-pieces are gathered.
impl Side for Arc {
    ghost extent = { extent };

    fn stretch(&self, member: u64) -> Stretch {
        Arc::from_number(member).map_or(Stretch { low: 1, high: 0 }, |arc| {
            let low = u32::from(self.begin_of(&arc));
            Stretch {
                low,
                high: low + u32::from(arc.len) - 1,
            }
        })
    }
}
