// Books of tags.
use labels::kind::{AddFault, LabelKind, NarrowKind};
use labels::set::GuardSet;
use labels::tags::{Tag, Tags};
use std::test::Fail;

#[test]
fn labels_end_at_63(rt: HostRuntime) {
    let tags = Tags::new();
    assert!(rt; tags.label(0) && tags.label(63) && !tags.label(64));
    assert_eq!(rt; tags.largest(), 63);
    assert_eq!(rt; tags.count(), 0);
}

#[test]
fn add_refuses_at_its_edges(rt: HostRuntime) {
    let mut tags = Tags::new();
    assert_eq!(rt; tags.add(32, &Tag(63)), Err(AddFault::Guard));
    assert_eq!(rt; tags.add(31, &Tag(64)), Err(AddFault::Value));
    // the guard is looked at first
    assert_eq!(rt; tags.add(32, &Tag(64)), Err(AddFault::Guard));
    assert_eq!(rt; tags.count(), 0);
    assert_eq!(rt; tags.add(31, &Tag(63)), Ok(()));
    assert_eq!(rt; tags.count(), 32);
    assert!(rt; tags.holds(31, 63) && !tags.holds(30, 63) && !tags.holds(31, 62));
}

// Guard 0 has the tags 3 and 5, guard 1 the tag 3.
#[test]
fn least_asks_both_sets(rt: HostRuntime) {
    let none = GuardSet::none();
    let zero = none.with(0);
    let one = none.with(1);
    let mut tags = Tags::new();
    assert_eq!(rt; tags.add(0, &Tag(3)), Ok(()));
    assert_eq!(rt; tags.add(0, &Tag(5)), Ok(()));
    assert_eq!(rt; tags.add(1, &Tag(3)), Ok(()));
    assert_eq!(rt; tags.least(none, none), Some(0));
    assert_eq!(rt; tags.least(zero, none), Some(3));
    assert_eq!(rt; tags.least(zero, one), Some(5));
    assert_eq!(rt; tags.least(one, zero), None);
    // no guard 2 is in the book
    assert_eq!(rt; tags.least(none.with(2), none), None);
}

#[test]
fn refusals_have_numbers(rt: HostRuntime) {
    assert_eq!(rt; AddFault::Guard.number(), 10);
    assert_eq!(rt; AddFault::Value.number(), 11);
    assert_eq!(rt; AddFault::Full.number(), 12);
}

#[test]
fn refusals_print_themselves(rt: HostRuntime) -> Result<(), Fail> {
    let heap = rt.alloc();
    let guard = AddFault::Guard.to_string(heap)?;
    assert_eq!(rt; guard.as_str(), "the guard's number is above 31");
    let value = AddFault::Value.to_string(heap)?;
    assert_eq!(rt; value.as_str(), "the value is not of the kind's form");
    let full = AddFault::Full.to_string(heap)?;
    assert_eq!(rt; full.as_str(), "there is no place for one more value");
    Ok(())
}
