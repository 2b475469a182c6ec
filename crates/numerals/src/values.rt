// Numbers between commas.
ghost use Rattle.std.specs.Prelude.{◌≡◌, ℕ, List, [], ◌∷◌, ◌++◌, ℤ, MatchOption, FitsSigned, ◌≢◌};
ghost use Rattle.std.specs.Int.{w32};
ghost use Rattle.std.specs.Fmt.{signed_decimal};
ghost use Rattle.numerals.specs.Lists.{Lists};

use crate::cut::cut;
use crate::read::read_number;

// The number before the first comma, and what follows the comma.
fn first_number(text: &[u8]) -> Option<(i32, &[u8])>
    ensures { MatchOption result ((z : ℤ) (rest : List ℕ) → FitsSigned w32 z → text.now ≢ signed_decimal z ++ 44 ∷ rest) (λ p. (text.now ≡ signed_decimal p.0 ++ 44 ∷ p.1.now) × FitsSigned w32 p.0) }
{
    let (front, rest) = cut(text, b',')?;
    Some((read_number(front)?, rest))
}

// The N numbers that a text lists.
pub fn numbers<const N: usize>(text: &[u8]) -> Option<[i32; N]>
    ensures { MatchOption result ((zs : List ℤ) → Lists N text.now zs → ⊥) (λ ns. Lists N text.now ns) }
{
    let mut numbers = [0; N];
    if N == 0 {
        return text.is_empty().then_some(numbers);
    }
    let mut rest = text;
    // By index: of what is written through an iterator over a part of the array a proof knows nothing afterwards.
    for i in 0..N - 1 {
        (numbers[i], rest) = first_number(rest)?;
    }
    numbers[N - 1] = read_number(rest)?;
    Some(numbers)
}

// The number that a text writes.
pub fn one_number(text: &[u8]) -> Option<i32>
    ensures { MatchOption result ((zs : List ℤ) → Lists 1 text.now zs → ⊥) (λ z. Lists 1 text.now (z ∷ [])) }
{
    let [number] = numbers::<1>(text)?;
    Some(number)
}

// The two numbers that a text lists.
pub fn two_numbers(text: &[u8]) -> Option<(i32, i32)>
    ensures { MatchOption result ((zs : List ℤ) → Lists 2 text.now zs → ⊥) (λ p. Lists 2 text.now (p.0 ∷ p.1 ∷ [])) }
{
    let [first, second] = numbers::<2>(text)?;
    Some((first, second))
}

// The four numbers that a text lists.
pub fn four_numbers(text: &[u8]) -> Option<(i32, i32, i32, i32)>
    ensures { MatchOption result ((zs : List ℤ) → Lists 4 text.now zs → ⊥) (λ p. Lists 4 text.now (p.0 ∷ p.1 ∷ p.2 ∷ p.3 ∷ [])) }
{
    let [first, second, third, fourth] = numbers::<4>(text)?;
    Some((first, second, third, fourth))
}

// The six numbers that a text lists.
pub fn six_numbers(text: &[u8]) -> Option<(i32, i32, i32, i32, i32, i32)>
    ensures { MatchOption result ((zs : List ℤ) → Lists 6 text.now zs → ⊥) (λ p. Lists 6 text.now (p.0 ∷ p.1 ∷ p.2 ∷ p.3 ∷ p.4 ∷ p.5 ∷ [])) }
{
    let [first, second, third, fourth, fifth, sixth] = numbers::<6>(text)?;
    Some((first, second, third, fourth, fifth, sixth))
}
