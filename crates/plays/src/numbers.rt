// Answers as numbers, so that two can be compared.
ghost use Rattle.std.specs.Prelude.{◌≡◌};
ghost use Rattle.plays.specs.Numbered.{class_code, numbers};

use domain::domain::Domain;
use paving::answers::Answer;
use paving::classes::Class;

fn class_code(class: Class) -> u64
    ensures { result ≡ class_code class }
{
    match class {
        Class::Inside => 1,
        Class::Outside => 2,
        Class::Undecided => 3,
    }
}

// What is answered, its kind first.
pub fn numbers<P: Domain>(answer: &Answer<P>) -> [u64; 10]
    ensures { result ≡ numbers P.Domain.maps answer.now }
{
    match answer {
        Answer::Stepped(records) => [1, u64::from(*records), 0, 0, 0, 0, 0, 0, 0, 0],
        Answer::Ran(ran) => [
            2,
            u64::from(ran.accepted),
            u64::from(ran.code()),
            0,
            0,
            0,
            0,
            0,
            0,
            0,
        ],
        Answer::Taken(record) => [
            3,
            u64::from(record.label),
            class_code(record.class),
            record.piece.number(),
            0,
            0,
            0,
            0,
            0,
            0,
        ],
        Answer::Found(place) => [4, u64::from(place.code()), 0, 0, 0, 0, 0, 0, 0, 0],
        Answer::Tallied(tally) => [
            5,
            tally.waiting,
            tally.roll.inside,
            tally.roll.outside,
            tally.roll.undecided,
            tally.taken.inside,
            tally.taken.outside,
            tally.taken.undecided,
            u64::from(tally.steps),
            u64::from(tally.next_label),
        ],
        Answer::Refused(refusal) => [6, u64::from(refusal.code()), 0, 0, 0, 0, 0, 0, 0, 0],
    }
}
