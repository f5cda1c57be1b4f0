// Books of code points.
use labels::code_points::CodePoints;
use labels::kind::{AddFault, LabelKind, NarrowKind};
use labels::range::Range;
use labels::set::GuardSet;
use std::test::Fail;

const LAST: u32 = 0x10FFFF;

// What the book answers to the range.
fn give(points: &mut CodePoints, guard: u32, low: u32, high: u32) -> Result<(), AddFault> {
    points.add(guard, &Range { low, high })
}

#[test]
fn surrogates_are_no_labels(rt: HostRuntime) -> Result<(), Fail> {
    let points = CodePoints::new(rt.alloc())?;
    assert!(rt; points.label(0) && points.label(0x10FFFF) && !points.label(0x110000));
    assert!(rt; points.label(0xD7FF) && !points.label(0xD800));
    assert!(rt; !points.label(0xDFFF) && points.label(0xE000));
    // 41 hex, with a bit above the 32 that a code point is kept in
    assert!(rt; !points.label(0x1_0000_0041));
    assert_eq!(rt; points.largest(), 0x10FFFF);
    assert_eq!(rt; points.count(), 0);
    Ok(())
}

#[test]
fn a_range_has_both_ends(rt: HostRuntime) -> Result<(), Fail> {
    let mut points = CodePoints::new(rt.alloc())?;
    assert_eq!(rt; give(&mut points, 0, 0x41, 0x5A), Ok(()));
    assert!(rt; points.holds(0, 0x41) && points.holds(0, 0x5A));
    assert!(rt; !points.holds(0, 0x40) && !points.holds(0, 0x5B));
    assert_eq!(rt; give(&mut points, 0, 0xD7FF, 0xE000), Ok(()));
    assert!(rt; points.holds(0, 0xD7FF) && points.holds(0, 0xE000));
    assert!(rt; !points.holds(0, 0xD800) && !points.holds(0, 0xDFFF));
    assert!(rt; !points.holds(0, 0x1_0000_0041) && !points.holds(1, 0x41));
    Ok(())
}

#[test]
fn add_refuses_at_its_edges(rt: HostRuntime) -> Result<(), Fail> {
    let mut points = CodePoints::new(rt.alloc())?;
    assert_eq!(rt; give(&mut points, 32, LAST, LAST), Err(AddFault::Guard));
    assert_eq!(rt; give(&mut points, 31, LAST, LAST + 1), Err(AddFault::Value));
    assert_eq!(rt; give(&mut points, 31, 0x42, 0x41), Err(AddFault::Value));
    // the guard is looked at first
    assert_eq!(rt; give(&mut points, 32, 0x42, 0x41), Err(AddFault::Guard));
    assert_eq!(rt; points.count(), 0);
    assert_eq!(rt; give(&mut points, 31, LAST, LAST), Ok(()));
    assert_eq!(rt; points.count(), 32);
    Ok(())
}

#[test]
fn a_book_has_64_ranges(rt: HostRuntime) -> Result<(), Fail> {
    let mut points = CodePoints::new(rt.alloc())?;
    for i in 0..64u32 {
        assert_eq!(rt; give(&mut points, 0, i, i), Ok(()));
    }
    // a full book is looked for last
    assert_eq!(rt; give(&mut points, 1, 64, 64), Err(AddFault::Full));
    assert_eq!(rt; give(&mut points, 1, 64, 63), Err(AddFault::Value));
    assert_eq!(rt; give(&mut points, 32, 64, 63), Err(AddFault::Guard));
    assert_eq!(rt; points.count(), 1);
    let none = GuardSet::none();
    assert_eq!(rt; points.least(none, none.with(0)), Some(64));
    Ok(())
}

// Guard 0 has 0 to D7FF hex, guard 1 has D800 to DFFF, guard 2 has D900 to E00F.
#[test]
fn least_steps_over_the_surrogates(rt: HostRuntime) -> Result<(), Fail> {
    let none = GuardSet::none();
    let mut points = CodePoints::new(rt.alloc())?;
    assert_eq!(rt; give(&mut points, 0, 0, 0xD7FF), Ok(()));
    assert_eq!(rt; give(&mut points, 1, 0xD800, 0xDFFF), Ok(()));
    assert_eq!(rt; give(&mut points, 2, 0xD900, 0xE00F), Ok(()));
    assert_eq!(rt; points.least(none, none.with(0)), Some(0xE000));
    assert_eq!(rt; points.least(none.with(1), none), None);
    assert_eq!(rt; points.least(none.with(2), none), Some(0xE000));
    assert_eq!(rt; points.least(none, none.with(0).with(2)), Some(0xE010));
    Ok(())
}

// Guard 0 has all but the last code point, guard 1 has that one.
#[test]
fn least_reaches_the_last(rt: HostRuntime) -> Result<(), Fail> {
    let none = GuardSet::none();
    let mut points = CodePoints::new(rt.alloc())?;
    assert_eq!(rt; give(&mut points, 0, 0, 0x10FFFE), Ok(()));
    assert_eq!(rt; points.least(none, none.with(0)), Some(0x10FFFF));
    assert_eq!(rt; give(&mut points, 1, 0x10FFFF, 0x10FFFF), Ok(()));
    assert_eq!(rt; points.least(none.with(1), none.with(0)), Some(0x10FFFF));
    assert_eq!(rt; points.least(none, none.with(0).with(1)), None);
    Ok(())
}
