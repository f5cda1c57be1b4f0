// The atoms of guard books.
use atoms::fault::TooManyAtoms;
use atoms::find::atoms;
use atoms::table::AtomTable;
use labels::code_points::CodePoints;
use labels::events::EventWords;
use labels::kind::{AddFault, LabelKind};
use labels::range::Range;
use labels::tags::{Tag, Tags};
use std::test::Fail;

// The label of atom k and the bits of its guards.
fn entry(table: &AtomTable, k: usize) -> Option<(u64, u32)> {
    table.atom(k).map(|atom| (atom.label, atom.guards.0))
}

// Guard k has the tag k, for each k below n.
fn single_tags(n: u32) -> Result<Tags, AddFault> {
    let mut tags = Tags::new();
    for k in 0..n {
        tags.add(k, &Tag(k))?;
    }
    Ok(tags)
}

#[test]
fn surrogates_make_no_atom(rt: HostRuntime) -> Result<(), Fail> {
    let mut points = CodePoints::new(rt.alloc())?;
    points.add(
        0,
        &Range {
            low: 0xD800,
            high: 0xDFFF,
        },
    )?;
    let mut table = AtomTable::fresh();
    assert_eq!(rt; atoms(&points, &mut table), Ok((1, 1)));
    assert_eq!(rt; entry(&table, 0), Some((0, 0)));
    assert_eq!(rt; entry(&table, 1), None);
    Ok(())
}

#[test]
fn ranges_that_overlap(rt: HostRuntime) -> Result<(), Fail> {
    let mut points = CodePoints::new(rt.alloc())?;
    points.add(
        0,
        &Range {
            low: 0x41,
            high: 0x5A,
        },
    )?;
    points.add(
        1,
        &Range {
            low: 0x50,
            high: 0x60,
        },
    )?;
    let mut table = AtomTable::fresh();
    assert_eq!(rt; atoms(&points, &mut table), Ok((4, 2)));
    assert_eq!(rt; entry(&table, 0), Some((0, 0)));
    assert_eq!(rt; entry(&table, 1), Some((65, 1)));
    assert_eq!(rt; entry(&table, 2), Some((80, 3)));
    assert_eq!(rt; entry(&table, 3), Some((91, 2)));
    assert_eq!(rt; entry(&table, 4), None);
    Ok(())
}

#[test]
fn two_bits_of_a_word(rt: HostRuntime) -> Result<(), Fail> {
    let heap = rt.alloc();
    let mut words = EventWords::new(heap)?;
    words.add(0, &String::from_str(heap, "1---------------")?)?;
    words.add(1, &String::from_str(heap, "---------------1")?)?;
    let mut table = AtomTable::fresh();
    assert_eq!(rt; atoms(&words, &mut table), Ok((4, 2)));
    assert_eq!(rt; entry(&table, 0), Some((0, 0)));
    assert_eq!(rt; entry(&table, 1), Some((1, 2)));
    assert_eq!(rt; entry(&table, 2), Some((32768, 1)));
    assert_eq!(rt; entry(&table, 3), Some((32769, 3)));
    Ok(())
}

#[test]
fn fifteen_tags(rt: HostRuntime) -> Result<(), Fail> {
    let mut table = AtomTable::fresh();
    assert_eq!(rt; atoms(&single_tags(15)?, &mut table), Ok((16, 15)));
    assert_eq!(rt; table.count(), 16);
    assert_eq!(rt; entry(&table, 0), Some((0, 1)));
    assert_eq!(rt; entry(&table, 14), Some((14, 16384)));
    assert_eq!(rt; entry(&table, 15), Some((15, 0)));
    assert_eq!(rt; entry(&table, 16), None);
    Ok(())
}

#[test]
fn sixteen_tags_leave_a_fresh_table(rt: HostRuntime) -> Result<(), Fail> {
    let mut table = AtomTable::fresh();
    assert_eq!(rt; atoms(&single_tags(16)?, &mut table), Err(TooManyAtoms));
    assert_eq!(rt; table.count(), 1);
    assert_eq!(rt; table.guards(), 0);
    assert_eq!(rt; entry(&table, 0), Some((0, 0)));
    assert_eq!(rt; entry(&table, 1), None);
    Ok(())
}

#[test]
fn sixteen_tags_leave_a_written_table(rt: HostRuntime) -> Result<(), Fail> {
    let mut table = AtomTable::fresh();
    assert_eq!(rt; atoms(&single_tags(3)?, &mut table), Ok((4, 3)));
    assert_eq!(rt; atoms(&single_tags(16)?, &mut table), Err(TooManyAtoms));
    assert_eq!(rt; table.count(), 4);
    assert_eq!(rt; table.guards(), 3);
    assert_eq!(rt; entry(&table, 2), Some((2, 4)));
    assert_eq!(rt; entry(&table, 3), Some((3, 0)));
    Ok(())
}

#[test]
fn the_refusal_as_a_text_and_a_number(rt: HostRuntime) -> Result<(), Fail> {
    assert_eq!(rt;
        TooManyAtoms.to_string(rt.alloc())?.as_str(),
        "more than 16 atoms"
    );
    assert_eq!(rt; TooManyAtoms.number(), 20);
    Ok(())
}
