// Rings, cones and arcs at the extremes.
use contractor::contractor::Contractor;
use dial::arc::Arc;
use domain::domain::Domain;
use domain::refusal::Refusal;
use leaves::arc::ArcReading;
use leaves::cone::Cone;
use leaves::ring::Ring;
use plane::plane_box::PlaneBox;
use std::test::Fail;

// The number of what is answered; 0 for nothing.
fn number_of<P: Domain>(answer: Option<P>) -> u64 {
    answer.map_or(0, |piece| piece.number())
}

fn code_of<T: Drop>(answer: Result<T, Refusal>) -> u8 {
    answer.err().map_or(0, |refusal| refusal.code())
}

#[test]
fn limits_of_a_ring(rt: HostRuntime) {
    assert_eq!(rt; code_of(Ring::new(-16384, 16383, 0, 32767)), 0);
    assert_eq!(rt; code_of(Ring::new(16384, 0, 0, 1)), 3);
    assert_eq!(rt; code_of(Ring::new(0, -16385, 2, 1)), 3);
    assert_eq!(rt; code_of(Ring::new(0, 0, -1, 1)), 4);
    assert_eq!(rt; code_of(Ring::new(0, 0, 2, 1)), 4);
    assert_eq!(rt; code_of(Ring::new(0, 0, 0, 32768)), 4);
    assert_eq!(rt; code_of(Ring::new(0, 0, 7, 7)), 0);
}

#[test]
fn limits_of_a_cone(rt: HostRuntime) {
    assert_eq!(rt;
        code_of(Cone::new(-16384, 16383, 2047, -2048, 2047, 2047)),
        0
    );
    assert_eq!(rt; code_of(Cone::new(0, 0, 2048, 0, 0, 1)), 3);
    assert_eq!(rt; code_of(Cone::new(0, 0, 1, 0, 0, -2049)), 3);
    assert_eq!(rt; code_of(Cone::new(0, 0, 1, 0, 1, 0)), 5);
    assert_eq!(rt; code_of(Cone::new(0, 0, 1, 1, 1, 0)), 5);
    assert_eq!(rt; code_of(Cone::new(16384, 0, 1, 1, 1, 0)), 3);
}

#[test]
fn single_cells(rt: HostRuntime) -> Result<(), Fail> {
    let circle = Ring::new(0, 0, 5, 5)?;
    let on = PlaneBox::new(3, 4, 3, 4)?;
    let off = PlaneBox::new(3, 3, 3, 3)?;
    assert_eq!(rt; number_of(circle.keep(&on)), on.number());
    assert_eq!(rt; number_of(circle.shed(&on)), 0);
    assert_eq!(rt; number_of(circle.keep(&off)), 0);
    assert_eq!(rt; number_of(circle.shed(&off)), off.number());
    Ok(())
}

#[test]
fn a_hole_in_the_middle(rt: HostRuntime) -> Result<(), Fail> {
    let ring = Ring::new(10, 10, 3, 32767)?;
    let piece = PlaneBox::new(0, 0, 20, 20)?;
    assert_eq!(rt; number_of(ring.keep(&piece)), piece.number());
    assert_eq!(rt;
        number_of(ring.shed(&piece)),
        PlaneBox::new(8, 8, 12, 12)?.number()
    );
    Ok(())
}

#[test]
fn a_cone_from_afar(rt: HostRuntime) -> Result<(), Fail> {
    let cone = Cone::new(-16384, -16384, 2047, 2047, 2046, 2047)?;
    let corner = PlaneBox::new(0, 0, 0, 0)?;
    let below = PlaneBox::new(9, 0, 9, 0)?;
    assert_eq!(rt; number_of(cone.keep(&corner)), corner.number());
    assert_eq!(rt; number_of(cone.keep(&below)), 0);
    Ok(())
}

#[test]
fn arcs_of_one_and_all(rt: HostRuntime) -> Result<(), Fail> {
    let one = ArcReading::from(Arc::new(0, 1)?);
    let all = ArcReading::from(Arc::new(7, 3600)?);
    let across = Arc::new(3590, 20)?;
    assert_eq!(rt; number_of(one.keep(&across)), Arc::new(0, 1)?.number());
    assert_eq!(rt; number_of(one.shed(&across)), across.number());
    assert_eq!(rt; number_of(all.keep(&across)), across.number());
    assert_eq!(rt; number_of(all.shed(&across)), 0);
    Ok(())
}
