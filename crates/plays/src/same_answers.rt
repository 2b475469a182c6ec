// When two answers are the same. Pieces of a domain have no `==`, so an answer's derived one does not serve: their numbers
// are compared.
ghost use Rattle.std.specs.Prelude.{◌≡◌, Decides};

use domain::domain::Domain;
use paving::answers::Answer;
use paving::records::Record;

fn same_records<P: Domain>(one: Record<P>, other: Record<P>) -> bool
    ensures { Decides result (one ≡ other) }
{
    one.label == other.label
        && one.class == other.class
        && one.piece.number() == other.piece.number()
}

pub fn same_answers<P: Domain>(one: Answer<P>, other: Answer<P>) -> bool
    ensures { Decides result (one ≡ other) }
{
    match (one, other) {
        (Answer::Stepped(one), Answer::Stepped(other)) => one == other,
        (Answer::Ran(one), Answer::Ran(other)) => one == other,
        (Answer::Taken(one), Answer::Taken(other)) => same_records(one, other),
        (Answer::Found(one), Answer::Found(other)) => one == other,
        (Answer::Tallied(one), Answer::Tallied(other)) => one == other,
        (Answer::Refused(one), Answer::Refused(other)) => one == other,
        _ => false,
    }
}
