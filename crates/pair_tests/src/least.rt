// Least labels and atoms that were worked out by hand.
use crate::books::{crossed, points, range, tags, value, words};
use atoms::atom::Atom;
use atoms::find::atoms;
use atoms::table::AtomTable;
use labels::code_points::CodePoints;
use labels::kind::LabelKind;
use labels::set::GuardSet;
use labels::tags::{Tag, Tags};
use pairs::pair::Pair;
use std::test::Fail;

#[test]
fn point_41_with_tag_3(rt: HostRuntime) -> Result<(), Fail> {
    let none = GuardSet::none();
    let mut points = CodePoints::new(rt.alloc())?;
    points.add(0, &range(0x41, 0x41))?;
    let mut tags = Tags::new();
    tags.add(0, &Tag(3))?;
    let mut pair = Pair::new(points, tags);
    pair.add(0, &value(0, 0))?;
    assert_eq!(rt; pair.least(none.with(0), none), Some(279172874243));
    assert_eq!(rt; pair.least(none, none.with(0)), Some(0));
    assert_eq!(rt; pair.least(none.with(0), none.with(0)), None);
    Ok(())
}

#[test]
fn the_least_of_several_branches(rt: HostRuntime) -> Result<(), Fail> {
    let none = GuardSet::none();
    let pair = crossed(tags()?, tags()?)?;
    // the branch that is looked at first has a larger label
    assert_eq!(rt; pair.least(none, none.with(0)), Some(0));
    // guard 0 of the first part is of both lists
    assert_eq!(rt; pair.least(none.with(2), none.with(0)), Some(0x3_0000_0005));
    // guards 3 and 31 have no value, and hold of no label
    assert_eq!(rt; pair.least(none.with(3), none), None);
    assert_eq!(rt; pair.least(none, none.with(3).with(31)), Some(0));
    Ok(())
}

// The two kinds with the largest books.
#[test]
fn atoms_of_points_with_words(rt: HostRuntime) -> Result<(), Fail> {
    let none = GuardSet::none();
    let heap = rt.alloc();
    let mut pair = Pair::new(points(heap)?, words(heap)?);
    pair.add(0, &value(0, 1))?;
    let mut table = AtomTable::fresh();
    assert_eq!(rt; atoms(&pair, &mut table)?, (2, 1));
    let expected = [
        Atom {
            label: 0,
            guards: none,
        },
        Atom {
            label: 0x41_0000_0001,
            guards: none.with(0),
        },
    ];
    assert_eq!(rt; table.as_slice(), expected.as_slice());
    Ok(())
}
