// Sets of guards.
use labels::set::GuardSet;

#[test]
fn a_predicate_chooses_below_32(rt: HostRuntime) {
    let even = GuardSet::from_fn(|g| g % 2 == 0);
    assert_eq!(rt; even, GuardSet(0x5555_5555));
    assert_eq!(rt; GuardSet::from_fn(|_| true), GuardSet(0xFFFF_FFFF));
    assert_eq!(rt; GuardSet::from_fn(|g| g == 31), GuardSet(0x8000_0000));
    assert_eq!(rt; GuardSet::from_fn(|g| g > 31), GuardSet::none());
}

#[test]
fn others_end_at_the_count(rt: HostRuntime) {
    let even = GuardSet(0x5555_5555);
    assert_eq!(rt; even.others(0), GuardSet::none());
    assert_eq!(rt; even.others(3), GuardSet(2));
    assert_eq!(rt; even.others(32), GuardSet(0xAAAA_AAAA));
    assert_eq!(rt; even.others(40), GuardSet(0xAAAA_AAAA));
}
