// The plane at its edges.
use crate::refusals::refused;
use domain::domain::Domain;
use plane::plane_box::PlaneBox;
use std::test::Fail;

fn corners(piece: PlaneBox) -> (u16, u16, u16, u16) {
    (piece.x0(), piece.y0(), piece.x1(), piece.y1())
}

#[test]
fn the_whole_plane(rt: HostRuntime) -> Result<(), Fail> {
    let plane = PlaneBox::new(0, 0, 4095, 4095)?;
    assert_eq!(rt; plane.count(), 16_777_216);
    assert_eq!(rt; plane.size(), 4096);
    assert_eq!(rt; plane.height(), 24);
    assert!(rt; plane.holds(16_777_215));
    assert!(rt; !plane.holds(16_777_216));
    let (low, high) = plane.halves()?;
    assert_eq!(rt; corners(low), (0, 0, 2047, 4095));
    assert_eq!(rt; corners(high), (2048, 0, 4095, 4095));
    refused(&rt, PlaneBox::new(0, 0, 4096, 0))?;
    refused(&rt, PlaneBox::new(1, 0, 0, 0))?;
    refused(&rt, PlaneBox::new(0, 1, 0, 0))
}

#[test]
fn a_single_cell(rt: HostRuntime) -> Result<(), Fail> {
    let cell = PlaneBox::new(4095, 7, 4095, 7)?;
    assert_eq!(rt; cell.count(), 1);
    assert_eq!(rt; cell.height(), 0);
    assert!(rt; cell.holds(4096 * 7 + 4095));
    assert!(rt; !cell.holds(4096 * 8));
    refused(&rt, cell.halves())
}

#[test]
fn rows_and_columns(rt: HostRuntime) -> Result<(), Fail> {
    let (low, high) = PlaneBox::new(3, 9, 7, 9)?.halves()?;
    assert_eq!(rt; corners(low), (3, 9, 4, 9));
    assert_eq!(rt; corners(high), (5, 9, 7, 9));
    let (low, high) = PlaneBox::new(3, 9, 3, 11)?.halves()?;
    assert_eq!(rt; corners(low), (3, 9, 3, 9));
    assert_eq!(rt; corners(high), (3, 10, 3, 11));
    Ok(())
}

#[test]
fn numbers_lead_back(rt: HostRuntime) -> Result<(), Fail> {
    let number = PlaneBox::new(1, 2, 3, 4)?.number();
    assert_eq!(rt; number, 68_753_043_460);
    assert_eq!(rt; corners(PlaneBox::from_number(number)?), (1, 2, 3, 4));
    refused(&rt, PlaneBox::from_number(68_719_476_736))?;
    refused(&rt, PlaneBox::from_number(281_474_976_710_656))?;
    refused(&rt, PlaneBox::from_number(18_446_744_073_709_551_615))
}

#[test]
fn strips_that_touch(rt: HostRuntime) -> Result<(), Fail> {
    let whole = PlaneBox::new(10, 10, 19, 19)?;
    let mut strips = whole.strips(&PlaneBox::new(12, 13, 14, 15)?)?;
    assert_eq!(rt; strips.next().map(corners), Some((10, 10, 11, 19)));
    assert_eq!(rt; strips.next().map(corners), Some((15, 10, 19, 19)));
    assert_eq!(rt; strips.next().map(corners), Some((12, 10, 14, 12)));
    assert_eq!(rt; strips.next().map(corners), Some((12, 16, 14, 19)));
    assert!(rt; strips.next().is_none());
    let mut strips = whole.strips(&PlaneBox::new(10, 10, 18, 19)?)?;
    assert_eq!(rt; strips.next().map(corners), Some((19, 10, 19, 19)));
    assert!(rt; strips.next().is_none());
    let mut strips = whole.strips(&PlaneBox::new(10, 11, 19, 19)?)?;
    assert_eq!(rt; strips.next().map(corners), Some((10, 10, 19, 10)));
    assert!(rt; strips.next().is_none());
    let mut strips = whole.strips(&whole)?;
    assert!(rt; strips.next().is_none());
    refused(&rt, whole.strips(&PlaneBox::new(10, 10, 20, 19)?))
}

#[test]
fn gatherings(rt: HostRuntime) -> Result<(), Fail> {
    let whole = PlaneBox::new(0, 0, 9, 9)?;
    let one = PlaneBox::new(0, 0, 1, 1)?.number();
    let two = PlaneBox::new(0, 8, 1, 9)?.number();
    let three = PlaneBox::new(8, 0, 9, 1)?.number();
    assert_eq!(rt;
        whole.gather(&[one, two, three], 2)?.map(corners),
        Some((0, 0, 1, 1))
    );
    assert_eq!(rt;
        whole.gather(&[three, one, two], 1)?.map(corners),
        Some((0, 0, 9, 9))
    );
    assert!(rt; whole.gather(&[one, two, three], 3)?.is_none());
    assert!(rt; whole.gather(&[one, two, three], 4)?.is_none());
    assert!(rt; whole.gather(&[], 1)?.is_none());
    refused(&rt, whole.gather(&[one], 0))?;
    refused(
        &rt,
        whole.gather(&[one, PlaneBox::new(9, 9, 10, 9)?.number()], 1),
    )?;
    refused(&rt, whole.gather(&[68_719_476_736], 1))
}
