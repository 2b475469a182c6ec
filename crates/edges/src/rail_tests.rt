// The two rails through the same trait.
use crate::rail::Rail;
use domain::domain::Domain;
use domain::sums::points_left;
use std::test::Fail;

#[test]
fn halves_and_strips(rt: HostRuntime) -> Result<(), Fail> {
    let both = Rail::Both;
    let (low, high) = both.halves()?;
    assert_eq!(rt; low.number(), 0);
    assert_eq!(rt; high.number(), 1);
    let mut strips = both.strips(&low)?;
    assert_eq!(rt; strips.next().ok_or("no strip")?.number(), 1);
    assert!(rt; strips.next().is_none());
    assert_eq!(rt; points_left(&both, &high)?, 1);
    assert!(rt; low.halves().is_err());
    Ok(())
}

#[test]
fn gathered_in_any_order(rt: HostRuntime) -> Result<(), Fail> {
    let both = Rail::Both;
    assert_eq!(rt; both.gather(&[0, 1, 0], 2)?.ok_or("nothing")?.number(), 0);
    assert_eq!(rt; both.gather(&[1, 0, 0], 2)?.ok_or("nothing")?.number(), 0);
    assert_eq!(rt; both.gather(&[2, 1], 1)?.ok_or("nothing")?.number(), 2);
    assert!(rt; both.gather(&[0, 1], 2)?.is_none());
    assert!(rt; both.gather(&[3], 1).is_err());
    assert!(rt; Rail::Port.gather(&[1], 1).is_err());
    Ok(())
}
