// Sheets at their edges.
use contractor::contractor::Contractor;
use domain::domain::Domain;
use domain::refusal::Refusal;
use leaves::ring::Ring;
use plane::plane_box::PlaneBox;
use sheet::grain::Grain;
use sheet::sheet::Sheet;
use std::test::Fail;

fn cells(grain: u32) -> Result<Sheet<Ring>, Refusal> {
    Ok(Sheet::open(
        Ring::new(0, 0, 0, 3)?,
        PlaneBox::new(0, 0, 3, 3)?,
        Grain::new(grain)?,
    ))
}

// The number that find answers, or 100 and the refusal's.
fn found<C: Contractor>(sheet: &Sheet<C>, point: u32) -> u8 {
    sheet.find(point).map_or_else(
        |refusal| refusal.code().saturating_add(100),
        |place| place.code(),
    )
}

// Takes all that is on the roll.
fn take_all<C: Contractor>(sheet: &mut Sheet<C>) -> u32 {
    for taken in 0..1024 {
        if sheet.take().is_err() {
            return taken;
        }
    }
    1024
}

#[test]
fn found_at_every_place(rt: HostRuntime) -> Result<(), Fail> {
    let mut fine = cells(1)?;
    assert_eq!(rt; found(&fine, 0), 0);
    assert_eq!(rt; found(&fine, 4), 114);
    let ran = fine.run(100);
    assert_eq!(rt; ran.code(), 11);
    assert_eq!(rt; found(&fine, 0), 1);
    assert_eq!(rt; found(&fine, 4096 * 3 + 3), 2);
    assert_eq!(rt; take_all(&mut fine), 7);
    assert_eq!(rt; found(&fine, 0), 4);
    let tally = fine.close();
    assert_eq!(rt; tally.taken.inside, 11);
    assert_eq!(rt; tally.taken.outside, 5);
    assert_eq!(rt; tally.steps, 3);
    let mut coarse = cells(64)?;
    assert_eq!(rt; coarse.step()?, 3);
    assert_eq!(rt; found(&coarse, 4097), 3);
    let _ = coarse.close();
    Ok(())
}

#[test]
fn runs_of_none_and_most(rt: HostRuntime) -> Result<(), Fail> {
    let mut sheet = cells(1)?;
    let none = sheet.run(0);
    assert_eq!(rt; none.accepted, 0);
    assert_eq!(rt; none.code(), 0);
    let most = sheet.run(4_294_967_295);
    assert_eq!(rt; most.accepted, 3);
    assert_eq!(rt; most.code(), 11);
    let _ = sheet.close();
    assert!(rt; Grain::new(0).is_err());
    assert!(rt; Grain::new(65).is_err());
    Ok(())
}

#[test]
fn a_start_of_one_point(rt: HostRuntime) -> Result<(), Fail> {
    let mut sheet = Sheet::open(
        Ring::new(0, 0, 5, 5)?,
        PlaneBox::new(3, 4, 3, 4)?,
        Grain::new(1)?,
    );
    assert_eq!(rt; sheet.step()?, 1);
    assert_eq!(rt; found(&sheet, 4096 * 4 + 3), 1);
    assert!(rt; sheet.step().is_err());
    let tally = sheet.close();
    assert_eq!(rt; tally.steps, 1);
    Ok(())
}

#[test]
fn a_roll_that_fills(rt: HostRuntime) -> Result<(), Fail> {
    let mut sheet = Sheet::open(
        Ring::new(100, 100, 700, 900)?,
        PlaneBox::whole(),
        Grain::new(1)?,
    );
    let first = sheet.run(4_294_967_295);
    assert_eq!(rt; first.code(), 12);
    assert!(rt; sheet.step().is_err());
    let held = sheet.tally();
    let taken = take_all(&mut sheet);
    assert_eq!(rt; taken, held.next_label);
    assert!(rt; taken > 1015);
    let next = sheet.run(10);
    assert_eq!(rt; next.accepted, 10);
    assert_eq!(rt; next.code(), 0);
    let tally = sheet.close();
    assert_eq!(rt; tally.steps, held.steps.saturating_add(10));
    Ok(())
}
