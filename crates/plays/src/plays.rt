// A list of turns from an opening.
ghost use Rattle.contractor.specs.Means.{means};
ghost use Rattle.plays.specs.Plays.{PlayedAll};

use crate::lengths::LengthsDiffer;
use contractor::contractor::Contractor;
use paving::answers::Answer;
use paving::turns::Turn;
use sheet::grain::Grain;
use sheet::sheet::Sheet;

// Opens a sheet, plays the turns on it, and fills the list of answers, one for each turn. It gives the sheet as it
// then stands, and whether the turns were played: where the two lists differ in length, none is, and the answers stay
// as they are.
pub fn play<C: Contractor>(
    contractor: C,
    start: C::Piece,
    grain: Grain,
    turns: &[Turn],
    answers: &mut [Option<Answer<C::Piece>>],
) -> (Sheet<C>, Result<(), LengthsDiffer>)
    ensures { PlayedAll C.Piece.Domain.maps (means C.Contractor) contractor start grain turns.now answers.old answers.new result.0 result.1 }
{
    let mut sheet = Sheet::open(contractor, start, grain);
    if turns.len() != answers.len() {
        return (sheet, Err(LengthsDiffer));
    }
    // The turn by its place: of what is written through a zip of both lists a proof knows nothing afterwards.
    for (i, answer) in answers.iter_mut().enumerate() {
        *answer = Some(sheet.turn(turns[i]));
    }
    (sheet, Ok(()))
}
