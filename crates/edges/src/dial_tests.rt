// The dial at its edges.
use crate::refusals::refused;
use dial::arc::Arc;
use domain::domain::Domain;
use domain::sums::points_left;
use std::test::Fail;

fn parts(arc: Arc) -> (u16, u16) {
    (arc.start(), arc.len())
}

#[test]
fn limits_of_an_arc(rt: HostRuntime) -> Result<(), Fail> {
    assert_eq!(rt; parts(Arc::new(3599, 3600)?), (3599, 3600));
    assert_eq!(rt; parts(Arc::new(0, 1)?), (0, 1));
    refused(&rt, Arc::new(0, 0))?;
    refused(&rt, Arc::new(0, 3601))?;
    refused(&rt, Arc::new(3600, 1))
}

#[test]
fn numbers_lead_back(rt: HostRuntime) -> Result<(), Fail> {
    let arc = Arc::new(3599, 3600)?;
    assert_eq!(rt; arc.number(), 14_745_104);
    assert_eq!(rt; parts(Arc::from_number(14_745_104)?), (3599, 3600));
    assert_eq!(rt; parts(Arc::from_number(1)?), (0, 1));
    refused(&rt, Arc::from_number(0))?;
    refused(&rt, Arc::from_number(4096))?;
    refused(&rt, Arc::from_number(3601))?;
    refused(&rt, Arc::from_number(14_745_600))?;
    refused(&rt, Arc::from_number(14_745_601))?;
    refused(&rt, Arc::from_number(18_446_744_073_709_551_615))
}

#[test]
fn one_point(rt: HostRuntime) -> Result<(), Fail> {
    let arc = Arc::new(3599, 1)?;
    assert_eq!(rt; arc.count(), 1);
    assert_eq!(rt; arc.size(), 1);
    assert_eq!(rt; arc.height(), 0);
    assert!(rt; arc.holds(3599));
    assert!(rt; !arc.holds(0));
    assert!(rt; !arc.holds(3598));
    refused(&rt, arc.halves())?;
    assert_eq!(rt; points_left(&arc, &arc)?, 0);
    Ok(())
}

#[test]
fn arcs_that_wrap(rt: HostRuntime) -> Result<(), Fail> {
    let arc = Arc::new(3598, 4)?;
    assert!(rt; arc.holds(3598) && arc.holds(3599) && arc.holds(0) && arc.holds(1));
    assert!(rt; !arc.holds(2) && !arc.holds(3597) && !arc.holds(3600));
    assert!(rt; !arc.holds(4_294_967_295));
    let (low, high) = arc.halves()?;
    assert_eq!(rt; parts(low), (3598, 2));
    assert_eq!(rt; parts(high), (0, 2));
    Ok(())
}

#[test]
fn the_whole_circle(rt: HostRuntime) -> Result<(), Fail> {
    let circle = Arc::new(0, 3600)?;
    assert_eq!(rt; circle.count(), 3600);
    assert_eq!(rt; circle.height(), 12);
    let across = Arc::new(3599, 2)?;
    assert!(rt; !across.is_within(&circle));
    refused(&rt, circle.strips(&across))?;
    refused(&rt, circle.span(Some(across), None))?;
    let turned = Arc::new(3599, 3600)?;
    assert!(rt; across.is_within(&turned));
    assert!(rt; !circle.is_within(&turned));
    let (low, high) = turned.halves()?;
    assert_eq!(rt; parts(low), (3599, 1800));
    assert_eq!(rt; parts(high), (1799, 1800));
    Ok(())
}

#[test]
fn uneven_halves(rt: HostRuntime) -> Result<(), Fail> {
    let (low, high) = Arc::new(3599, 3)?.halves()?;
    assert_eq!(rt; parts(low), (3599, 1));
    assert_eq!(rt; parts(high), (0, 2));
    Ok(())
}

#[test]
fn strips_in_order(rt: HostRuntime) -> Result<(), Fail> {
    let whole = Arc::new(3590, 20)?;
    let inner = Arc::new(3598, 4)?;
    let mut strips = whole.strips(&inner)?;
    assert_eq!(rt; strips.next().map(parts), Some((3590, 8)));
    assert_eq!(rt; strips.next().map(parts), Some((2, 8)));
    assert!(rt; strips.next().is_none());
    let mut strips = whole.strips(&Arc::new(3590, 4)?)?;
    assert_eq!(rt; strips.next().map(parts), Some((3594, 16)));
    assert!(rt; strips.next().is_none());
    let mut strips = whole.strips(&Arc::new(8, 2)?)?;
    assert_eq!(rt; strips.next().map(parts), Some((3590, 18)));
    assert!(rt; strips.next().is_none());
    let mut strips = whole.strips(&whole)?;
    assert!(rt; strips.next().is_none());
    Ok(())
}

#[test]
fn spans(rt: HostRuntime) -> Result<(), Fail> {
    let whole = Arc::new(3590, 20)?;
    let one = Arc::new(2, 3)?;
    let other = Arc::new(3595, 2)?;
    assert_eq!(rt;
        whole.span(Some(one), Some(other))?.map(parts),
        Some((3595, 10))
    );
    assert_eq!(rt; whole.span(None, Some(one))?.map(parts), Some((2, 3)));
    assert_eq!(rt; whole.span(Some(one), None)?.map(parts), Some((2, 3)));
    assert!(rt; whole.span(None, None)?.is_none());
    refused(&rt, whole.span(None, Some(Arc::new(9, 2)?)))
}

#[test]
fn gatherings(rt: HostRuntime) -> Result<(), Fail> {
    let circle = Arc::new(0, 3600)?;
    let members = [
        Arc::new(10, 5)?.number(),
        Arc::new(12, 5)?.number(),
        Arc::new(100, 5)?.number(),
    ];
    assert_eq!(rt; circle.gather(&members, 1)?.map(parts), Some((10, 95)));
    assert_eq!(rt; circle.gather(&members, 2)?.map(parts), Some((12, 3)));
    assert!(rt; circle.gather(&members, 3)?.is_none());
    assert!(rt; circle.gather(&members, 4)?.is_none());
    assert!(rt; circle.gather(&[], 1)?.is_none());
    refused(&rt, circle.gather(&members, 0))?;
    refused(&rt, circle.gather(&[], 0))?;
    refused(&rt, circle.gather(&[0], 1))?;
    refused(&rt, circle.gather(&[Arc::new(3599, 2)?.number()], 1))
}
