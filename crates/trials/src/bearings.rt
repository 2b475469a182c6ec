// Three bearings, of which one may be wrong, and every refusal on the way to a layer.
use crate::narrowed::show;
use contractor::contractor::Contractor;
use dial::arc::Arc;
use domain::domain::Domain;
use domain::refusal::Refusal;
use layers::relaxed::Relaxed;
use leaves::arc::ArcReading;
use panels::draft::Draft;
use panels::joined::Joined;
use panels::panel::Panel;
use panels::reading_list::ReadingList;

pub(crate) fn run(rt: &impl Print) -> anyhow::Result<()> {
    let blank = ArcReading::new(0, 1)?;
    let mut memory = [blank; 3];
    relaxed(rt, &mut memory)?;
    liars(rt, &mut memory, 2)?;
    liars(rt, &mut memory, 3)?;
    no_member(rt, &mut memory)?;
    full_memory(rt, &mut memory)?;
    full_draft(rt)
}

// The arcs 10,5, 12,5 and 100,5, entered and sealed.
fn three<'a>(memory: &'a mut [ArcReading]) -> Result<ReadingList<'a, ArcReading>, Refusal> {
    Ok(drafted(memory)?.seal())
}

// The same, not yet sealed.
fn drafted<'a>(memory: &'a mut [ArcReading]) -> Result<Draft<'a, ArcReading>, Refusal> {
    let mut draft = Draft::new(memory);
    for start in [10, 12, 100] {
        draft.enter(ArcReading::new(start, 5)?)?;
    }
    Ok(draft)
}

// What the three leave of the whole dial, where one may be wrong.
fn relaxed(rt: &impl Print, memory: &mut [ArcReading]) -> anyhow::Result<()> {
    let circle = Arc::new(0, 3600)?;
    let layer = Relaxed::new(three(memory)?, 1)?;
    let name = "three arcs, one liar:";
    show(rt, name, "kept", &circle, layer.keep(&circle))?;
    show(rt, name, "shed", &circle, layer.shed(&circle))
}

fn liars(rt: &impl Print, memory: &mut [ArcReading], liars: usize) -> anyhow::Result<()> {
    match Relaxed::new(three(memory)?, liars) {
        Ok(_) => println!(rt; "three arcs, {liars} liars: stands")?,
        Err(refusal) => println!(rt; "three arcs, {liars} liars: {refusal}")?,
    }
    show_memory(rt, memory)
}

// A member number that the panel does not have.
fn no_member(rt: &impl Print, memory: &mut [ArcReading]) -> anyhow::Result<()> {
    let circle = Arc::new(0, 3600)?;
    let list = three(memory)?;
    if let Err(refusal) = list.keep(3, &circle) {
        println!(rt; "member 3 of three: {refusal}")?;
    }
    let count = list.count();
    println!(rt; "the panel has {count} members")?;
    Ok(())
}

// A fourth reading where three fit.
fn full_memory(rt: &impl Print, memory: &mut [ArcReading]) -> anyhow::Result<()> {
    let mut draft = drafted(memory)?;
    if let Err(refusal) = draft.enter(ArcReading::new(200, 5)?) {
        println!(rt; "a fourth reading: {refusal}")?;
    }
    let count = draft.count();
    println!(rt; "the draft has {count} readings")?;
    show_memory(rt, draft.memory())
}

// A seventeenth reading, and a panel of seventeen.
fn full_draft(rt: &impl Print) -> anyhow::Result<()> {
    let reading = ArcReading::new(10, 5)?;
    let mut memory = [ArcReading::new(0, 1)?; 17];
    let mut draft = Draft::new(&mut memory);
    for _ in 0..16 {
        draft.enter(reading)?;
    }
    if let Err(refusal) = draft.enter(reading) {
        println!(rt; "a seventeenth reading: {refusal}")?;
    }
    let count = draft.count();
    println!(rt; "the draft has {count} readings")?;
    let mut other = [reading; 3];
    if let Err(refusal) = Joined::new(draft.seal(), three(&mut other)?) {
        println!(rt; "panels of 16 and 3 joined: {refusal}")?;
    }
    show_memory(rt, &other)
}

fn show_memory(rt: &impl Print, memory: &[ArcReading]) -> anyhow::Result<()> {
    print!(rt; "memory:")?;
    for reading in memory {
        let arc = reading.arc;
        print!(rt; " {arc}")?;
    }
    println!(rt; "")?;
    Ok(())
}
