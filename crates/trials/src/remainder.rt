// What is left to search of a piece, whatever the domain.
use domain::domain::Domain;
use domain::refusal::Refusal;
use domain::sums::points_left;
use std::fmt::Display;

// Prints what is left of `whole` without `searched`, halves the largest part, and adds up.
pub(crate) fn report<P: Domain + Display>(
    rt: &impl Print,
    whole: &P,
    searched: &P,
) -> anyhow::Result<()> {
    let all = whole.count();
    let done = searched.count();
    println!(rt; "to search {whole}: {all} points")?;
    println!(rt; "searched {searched}: {done} points")?;
    let mut largest = None;
    for piece in whole.strips(searched)? {
        show(rt, "left", &piece)?;
        largest = Some(larger(largest, piece));
    }
    if let Some(piece) = largest {
        show_halves(rt, &piece)?;
    }
    let left = points_left(whole, searched)?;
    println!(rt; "sum: {done} searched and {left} left of {all}")?;
    Ok(())
}

// Whether numbers are those of a piece.
pub(crate) fn judge<P: Display + Drop>(
    rt: &impl Print,
    numbers: &str,
    made: Result<P, Refusal>,
) -> anyhow::Result<()> {
    match made {
        Ok(piece) => println!(rt; "{piece} is a piece")?,
        Err(refusal) => println!(rt; "{numbers} is {refusal}")?,
    }
    Ok(())
}

// The halves of a piece; one point has none.
fn show_halves<P: Domain + Display>(rt: &impl Print, piece: &P) -> anyhow::Result<()> {
    if let Ok((low, high)) = piece.halves() {
        show(rt, "low half", &low)?;
        show(rt, "high half", &high)?;
    }
    Ok(())
}

fn show<P: Domain + Display>(rt: &impl Print, what: &str, piece: &P) -> anyhow::Result<()> {
    let number = piece.number();
    let count = piece.count();
    println!(rt; "{what} {piece}: number {number}, {count} points")?;
    Ok(())
}

// The piece with more points, the earlier one on a tie.
fn larger<P: Domain>(best: Option<P>, piece: P) -> P {
    match best {
        Some(other) if other.count() >= piece.count() => other,
        _ => piece,
    }
}
