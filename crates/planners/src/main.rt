// Several planners in turn at one sheet, and the same turns over the readings in another order.
#![tactic(auto)]

use contractor::contractor::Contractor;
use dial::arc::Arc;
use domain::refusal::Refusal;
use layers::relaxed::Relaxed;
use leaves::arc::ArcReading;
use panels::draft::Draft;
use panels::reading_list::ReadingList;
use paving::answers::Answer;
use paving::tallies::{Points, Tally};
use paving::turns::Turn;
use plays::both_plays::play_both;
use sheet::grain::Grain;
use sheet::sheet::Sheet;
use std::io;

const TURNS: [Turn; 13] = [
    Turn::Take,
    Turn::Find(13),
    Turn::Step,
    Turn::Step,
    Turn::Find(13),
    Turn::Take,
    Turn::Take,
    Turn::Take,
    Turn::Take,
    Turn::Find(13),
    Turn::Find(3600),
    Turn::Run(9),
    Turn::Tally,
];

fn main(rt: HostRuntime) -> anyhow::Result<()> {
    run(&rt)
}

fn run(rt: &impl Print) -> anyhow::Result<()> {
    let mut memory = [ArcReading::new(0, 1)?; 3];
    let list = entered(&mut memory, [10, 12, 100])?;
    let mut sheet = Sheet::open(Relaxed::new(list, 1)?, Arc::new(0, 3600)?, Grain::new(1)?);
    for turn in TURNS {
        show_answer(rt, &sheet.turn(turn))?;
    }
    print!(rt; "closed: ")?;
    show_tally(rt, &sheet.close())?;
    again(rt)
}

// Three arcs of five points, entered in this order and sealed.
fn entered<'a>(
    memory: &'a mut [ArcReading],
    starts: [u16; 3],
) -> Result<ReadingList<'a, ArcReading>, Refusal> {
    let mut draft = Draft::new(memory);
    for start in starts {
        draft.enter(ArcReading::new(start, 5)?)?;
    }
    Ok(draft.seal())
}

// The same turns over the readings in two orders.
fn again(rt: &impl Print) -> anyhow::Result<()> {
    let blank = ArcReading::new(0, 1)?;
    let mut first = [blank; 3];
    let mut second = [blank; 3];
    let one = Relaxed::new(entered(&mut first, [10, 12, 100])?, 1)?;
    let other = Relaxed::new(entered(&mut second, [100, 10, 12])?, 1)?;
    let played = play_both(one, other, Arc::new(0, 3600)?, Grain::new(1)?, &TURNS);
    let outcome = if played.alike {
        "nothing differed"
    } else {
        "answers differed"
    };
    println!(rt; "readings in another order: {outcome}")?;
    Ok(())
}

fn show_answer(rt: &impl Print, answer: &Answer<Arc>) -> io::Result<()> {
    match answer {
        Answer::Stepped(records) => println!(rt; "step: {records} records"),
        Answer::Ran(ran) => println!(rt; "run: {} steps, {}", ran.accepted, ran.code()),
        Answer::Taken(record) => {
            println!(rt; "take: {} {}: {}", record.class, record.label, record.piece)
        }
        Answer::Found(place) => println!(rt; "find: {}", place.code()),
        Answer::Tallied(tally) => show_tally(rt, tally),
        Answer::Refused(refusal) => println!(rt; "{refusal}"),
    }
}

fn show_tally(rt: &impl Print, tally: &Tally) -> io::Result<()> {
    print!(rt; "tally: {} waiting, roll", tally.waiting)?;
    show_points(rt, &tally.roll)?;
    print!(rt; ", taken")?;
    show_points(rt, &tally.taken)?;
    println!(rt; ", {} steps, next label {}", tally.steps, tally.next_label)
}

fn show_points(rt: &impl Print, points: &Points) -> io::Result<()> {
    print!(rt;
        " {} in {} out {} und",
        points.inside, points.outside, points.undecided
    )
}
