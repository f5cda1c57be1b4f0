// What a pair takes and refuses.
use crate::books::{tags, value};
use labels::kind::{AddFault, LabelKind};
use pairs::pair::Pair;
use std::test::Fail;

// Each part has guards 0 and 1.
#[test]
fn add_refuses_at_its_edges(rt: HostRuntime) -> Result<(), Fail> {
    let mut pair = Pair::new(tags()?, tags()?);
    assert_eq!(rt; pair.add(32, &value(1, 1)), Err(AddFault::Guard));
    assert_eq!(rt; pair.add(31, &value(2, 1)), Err(AddFault::Value));
    assert_eq!(rt; pair.add(31, &value(1, 2)), Err(AddFault::Value));
    // the guard is looked at first
    assert_eq!(rt; pair.add(32, &value(2, 2)), Err(AddFault::Guard));
    assert_eq!(rt; pair.count(), 0);
    assert_eq!(rt; pair.add(31, &value(1, 1)), Ok(()));
    assert_eq!(rt; pair.count(), 32);
    Ok(())
}

#[test]
fn a_guard_takes_one_value(rt: HostRuntime) -> Result<(), Fail> {
    let mut pair = Pair::new(tags()?, tags()?);
    assert_eq!(rt; pair.add(0, &value(0, 1)), Ok(()));
    assert_eq!(rt; pair.add(0, &value(1, 0)), Err(AddFault::Full));
    // a second value is looked for last
    assert_eq!(rt; pair.add(0, &value(2, 0)), Err(AddFault::Value));
    assert_eq!(rt; pair.add(32, &value(1, 0)), Err(AddFault::Guard));
    assert_eq!(rt; pair.count(), 1);
    // tag 5 with tag 3, and the other way round
    assert!(rt; pair.holds(0, 0x5_0000_0003) && !pair.holds(0, 0x3_0000_0005));
    assert_eq!(rt; pair.add(1, &value(1, 0)), Ok(()));
    assert!(rt; pair.holds(1, 0x3_0000_0005) && !pair.holds(1, 0x5_0000_0003));
    Ok(())
}

#[test]
fn labels_are_of_both_parts(rt: HostRuntime) -> Result<(), Fail> {
    let pair = Pair::new(tags()?, tags()?);
    assert!(rt; pair.label(0) && pair.label(63) && !pair.label(64));
    assert!(rt; pair.label(0x3F_0000_003F) && !pair.label(0x40_0000_0000));
    assert!(rt; !pair.holds(0, 0) && !pair.holds(32, 0));
    Ok(())
}
