// What is gathered from the members' answers about a piece.
ghost use Rattle.std.specs.Prelude.{◌≡◌, ◌<◌, ◌≤◌, List, length, Option as Perhaps};
ghost use Rattle.domain.specs.Maps.{Fits};
ghost use Rattle.contractor.specs.Layers.{gathered};
ghost use Rattle.layers.specs.Answers.{Answered, Told};

use domain::domain::Domain;
use domain::refusal::Refusal;

// In the piece, what at least `depth` of the members' answers hold; nothing where more than `most` are nothing.
// The members answer by their numbers, from 0 on.
pub(crate) fn gathered<D: Domain, F: Fn(usize) -> Result<Option<D>, Refusal>>(
    piece: &D,
    members: usize,
    answer: F,
    most: usize,
    depth: usize,
) -> Option<D>
    requires callable { F.IsAlwaysCallable answer }
    requires few { (members ≤ 16) × (0 < depth) }
    requires fits { Answered (F.post answer) members (λ k o. Fits D.Domain.maps piece.now o) }
    ensures { (os : List (Perhaps D)) → Told (F.post answer) members os → result ≡ gathered D.Domain.maps piece.now os most depth }
{
    // the numbers of those that are not nothing; a panel has at most sixteen members, and the library no heap
    let mut numbers = [0; 16];
    let mut filled = 0;
    for member in 0..members {
        if let Some(part) = answer(member).unwrap() {
            numbers[filled] = part.number();
            filled += 1;
        }
    }
    if members - filled > most {
        return None;
    }
    piece.gather(&numbers[..filled], depth).unwrap()
}
