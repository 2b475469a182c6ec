// Taking records.
ghost use Rattle.std.specs.Prelude.{◌≡◌, ◌+◌, ◌^◌, ◌<◌};
ghost use Rattle.paving.specs.Laws.{points_at};
ghost use Rattle.paving.specs.declared.turns.Turn.TheVariants.{Take as TakeTurn};
ghost use Rattle.sheet.specs.Counts.{plus};
ghost use Rattle.contractor.specs.Means.{means};
ghost use Rattle.sheet.specs.Standing.{Turned, take_answer};

use crate::sheet::Sheet;
use contractor::contractor::Contractor;
use domain::domain::Domain;
use domain::refusal::Refusal;
use paving::classes::Class;
use paving::records::Record;
use paving::tallies::Points;

// Points more of one class.
pub(crate) fn add_points(points: &mut Points, class: Class, count: u64)
    requires { points_at points.old class + count < 2 ^ 64 }
    ensures { points.new ≡ plus points.old class count }
{
    match class {
        Class::Inside => points.inside += count,
        Class::Outside => points.outside += count,
        Class::Undecided => points.undecided += count,
    }
}

impl<C: Contractor> Sheet<C> {
    // The oldest record on the roll, which leaves it. Refused with 13 where the roll is empty, and then nothing changes.
    pub fn take(&mut self) -> Result<Record<C::Piece>, Refusal>
        ensures { Turned C.Piece.Domain.maps (means C.Contractor) TakeTurn self.old (take_answer result) self.new }
    {
        let record = self.store.roll.take().ok_or(Refusal::RollEmpty)?;
        add_points(&mut self.store.taken, record.class, record.piece.count());
        Ok(record)
    }
}
