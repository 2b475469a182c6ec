// An arc as a contractor of the dial: its set is the points that it holds.
ghost use Rattle.std.specs.Prelude.{◌≡◌, ◌<◌, ◌≤◌, IfSome};
ghost use Rattle.domain.specs.Refusals.{Given};
ghost use Rattle.scan.specs.Live.{run};
ghost use Rattle.dial.specs.Arcs.{AreArc, along as along_of, holds as holds_of, point as point_of};
ghost use Rattle.leaves.specs.Arcs.{held, missed, kept as kept_by, dropped as dropped_by};
ghost use Rattle.leaves.specs.Sweeps.{arc_sound};

use crate::opposite::Opposite;
use contractor::contractor::Contractor;
use dial::arc::Arc;
use domain::domain::Domain;
use domain::refusal::Refusal;
use scan::live::{Live, live_run};
use scan::stretch::Stretch;

// The point that lies `index` places past `start`, going round.
fn point_past(start: u16, index: u32) -> u32
    ensures { (result ≡ point_of start index) × (result < 3600) }
{
    ((u64::from(start) + u64::from(index)) % 3600) as u32
}

// The test of the places of a piece: whether an arc holds the point there.
#[derive(Clone, Copy)]
struct Held {
    arc: Arc,
    piece: Arc,
}

impl Live for Held {
    ghost live = { λ t i. held t.arc t.piece i };

    fn is_live(&self, index: u32) -> bool {
        self.arc.holds(point_past(self.piece.start(), index))
    }
}

// A run of the places of a piece as an arc.
fn along(piece: &Arc, places: Option<Stretch>) -> Option<Arc>
    requires { IfSome places (λ s. (s.low ≤ s.high) × (s.high < piece.now.len)) }
    ensures { result ≡ along_of piece.now places }
{
    let places = places?;
    let start = point_past(piece.start(), places.low) as u16;
    let len = (places.high + 1 - places.low) as u16;
    Arc::new(start, len).ok()
}

// An arc of the dial as a reading: the points that it holds.
#[derive(Clone, Copy)]
pub struct ArcReading {
    pub arc: Arc,
}

impl From<Arc> for ArcReading {
    ghost from_gives = { λ a r. r.arc ≡ a };

    fn from(arc: Arc) -> ArcReading {
        ArcReading { arc }
    }
}

impl ArcReading {
    // The arc of `len` points from `start` on, as a reading; refused with 1 where these are no arc's.
    pub fn new(start: u16, len: u16) -> Result<ArcReading, Refusal>
        ensures { Given result 1 (AreArc start len) (λ r. (r.arc.start ≡ start) × (r.arc.len ≡ len)) }
    {
        Arc::new(start, len).map(ArcReading::from)
    }

    // The test of the places of a piece: whether the point there is of the reading.
    fn held(&self, piece: &Arc) -> Held
        ensures { (result.arc ≡ self.now.arc) × (result.piece ≡ piece.now) }
    {
        Held {
            arc: self.arc,
            piece: *piece,
        }
    }

    // The run of the places of a piece whose points are of the reading.
    fn held_run(&self, piece: &Arc) -> Option<Stretch>
        ensures { result ≡ run (held self.now.arc piece.now) 0 piece.now.len }
    {
        live_run(&self.held(piece), 0, u32::from(piece.len()))
    }

    // The run of the places whose points are not.
    fn missed_run(&self, piece: &Arc) -> Option<Stretch>
        ensures { result ≡ run (missed self.now.arc piece.now) 0 piece.now.len }
    {
        live_run(&Opposite(self.held(piece)), 0, u32::from(piece.len()))
    }
}

impl Contractor for ArcReading {
    type Piece = Arc;

    ghost set = { λ c n. holds_of c.arc n };

    ghost kept = { λ c x. kept_by c.arc x };

    ghost dropped = { λ c x. dropped_by c.arc x };

    ghost sound = { λ c. arc_sound c.arc };

    fn keep(&self, piece: &Arc) -> Option<Arc> {
        along(piece, self.held_run(piece))
    }

    fn shed(&self, piece: &Arc) -> Option<Arc> {
        along(piece, self.missed_run(piece))
    }
}
