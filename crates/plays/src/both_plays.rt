// The same turns over two contractors.
ghost use Rattle.std.specs.Prelude.{◌≡◌};
ghost use Rattle.contractor.specs.Means.{means};
ghost use Rattle.sheet.specs.Standing.{SheetOf};
ghost use Rattle.plays.specs.Plays.{PlayedBoth};

use crate::same_answers::same_answers;
use contractor::contractor::Contractor;
use paving::turns::Turn;
use sheet::grain::Grain;
use sheet::sheet::Sheet;

// Two sheets after the same turns, and whether they answered alike all along.
#[derive(Drop)]
pub struct Compared<A: Contractor, B: Contractor> {
    pub one: Sheet<A>,
    pub other: Sheet<B>,
    pub alike: bool,
}

// Plays the turns on a sheet over each contractor.
pub fn play_both<A: Contractor, B: Contractor<Piece = A::Piece>>(
    one: A,
    other: B,
    start: A::Piece,
    grain: Grain,
    turns: &[Turn],
) -> Compared<A, B>
    ensures one { SheetOf A.Piece.Domain.maps (means A.Contractor) one start grain turns.now result.one }
    ensures other { SheetOf A.Piece.Domain.maps (means B.Contractor) other start grain turns.now result.other }
    ensures value { PlayedBoth A.Piece.Domain.maps (means A.Contractor one) (means B.Contractor other) start grain.size turns.now result.alike }
{
    let mut first = Sheet::open(one, start, grain);
    let mut second = Sheet::open(other, start, grain);
    let mut alike = true;
    for turn in turns {
        if !same_answers(first.turn(*turn), second.turn(*turn)) {
            alike = false;
        }
    }
    Compared {
        one: first,
        other: second,
        alike,
    }
}
