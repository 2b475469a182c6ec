// A start piece narrowed by a reading of each sort.
use contractor::contractor::Contractor;
use dial::arc::Arc;
use domain::domain::Domain;
use leaves::arc::ArcReading;
use leaves::cone::Cone;
use leaves::ring::Ring;
use plane::plane_box::PlaneBox;
use std::fmt::Display;

pub(crate) fn run(rt: &impl Print) -> anyhow::Result<()> {
    let cells = PlaneBox::new(0, 0, 3, 3)?;
    narrow(rt, "ring 0,0,0,3", &Ring::new(0, 0, 0, 3)?, &cells)?;
    narrow(
        rt,
        "cone 0,0,1,0,1,1",
        &Cone::new(0, 0, 1, 0, 1, 1)?,
        &cells,
    )?;
    let bearing = ArcReading::from(Arc::new(3598, 4)?);
    narrow(rt, "arc 3598,4", &bearing, &Arc::new(3590, 20)?)
}

fn narrow<P: Domain + Display, C: Contractor<Piece = P>>(
    rt: &impl Print,
    name: &str,
    reading: &C,
    piece: &P,
) -> anyhow::Result<()> {
    show(rt, name, "keeps", piece, reading.keep(piece))?;
    show(rt, name, "sheds", piece, reading.shed(piece))
}

// What a reading answers of a piece, with its points.
pub(crate) fn show<P: Domain + Display>(
    rt: &impl Print,
    name: &str,
    call: &str,
    piece: &P,
    answer: Option<P>,
) -> anyhow::Result<()> {
    match answer {
        Some(part) => {
            let count = part.count();
            println!(rt; "{name} {call} {part} of {piece}: {count} points")?;
        }
        None => println!(rt; "{name} {call} nothing of {piece}")?,
    }
    Ok(())
}
