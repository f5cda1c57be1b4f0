// What pairs answer, against what `holds` tells of a few labels among which each set of guards has its least.
use crate::books::{POINTS, TAGS, WORDS, crossed, points, tags, words};
use atoms::atom::Atom;
use atoms::find::atoms;
use atoms::table::AtomTable;
use labels::kind::{LabelKind, NarrowKind};
use labels::set::GuardSet;
use std::alloc::{AllocError, Global};
use std::process::Abort;
use std::test::Fail;

// The label of these parts.
fn pair_label(first: u32, second: u32) -> u64 {
    u64::from(first) << 32 | u64::from(second)
}

// The labels of these parts, rising.
fn grid(heap: Global, firsts: &[u32], seconds: &[u32]) -> Result<Vec<u64>, AllocError> {
    firsts
        .iter()
        .flat_map(|first| seconds.iter().map(|second| pair_label(*first, *second)))
        .collect(heap)
}

// The guards that hold of the label, by `holds` alone, so that nothing under test answers for itself.
fn guards_at<K: LabelKind>(kind: &K, label: u64) -> GuardSet {
    GuardSet::from_fn(|g| kind.holds(g, label))
}

// The first of the labels that fits.
fn first_fit<K: LabelKind>(kind: &K, labels: &[u64], yes: GuardSet, no: GuardSet) -> Option<u64> {
    labels
        .iter()
        .copied()
        .find(|label| guards_at(kind, *label).fits(yes, no))
}

// Asks for the least label of each two sets of the guards 0 to 2.
fn same_least<K: LabelKind>(rt: &impl Abort, kind: &K, labels: &[u64]) {
    for bits in 0..64 {
        let yes = GuardSet(bits % 8);
        let no = GuardSet(bits / 8);
        assert_eq!(rt; kind.least(yes, no), first_fit(kind, labels, yes, no));
    }
}

// For each set of guards that holds of one of the labels an atom, with the first of them.
fn atoms_among<K: LabelKind>(
    heap: Global,
    kind: &K,
    labels: &[u64],
) -> Result<Vec<Atom>, AllocError> {
    let mut found: Vec<Atom> = Vec::new(heap);
    for label in labels {
        let guards = guards_at(kind, *label);
        if !found.iter().any(|atom| atom.guards == guards) {
            found.push(Atom {
                label: *label,
                guards,
            })?;
        }
    }
    Ok(found)
}

// The table has the atoms that the labels show, and no others.
fn same_atoms<K: LabelKind>(
    rt: &(impl Abort + Alloc<A = Global>),
    kind: &K,
    labels: &[u64],
) -> Result<(), Fail> {
    let mut table = AtomTable::fresh();
    atoms(kind, &mut table)?;
    let expected = atoms_among(rt.alloc(), kind, labels)?;
    assert_eq!(rt; table.as_slice(), expected.as_slice());
    Ok(())
}

fn agrees<A: NarrowKind + Drop, B: NarrowKind + Drop>(
    rt: &(impl Abort + Alloc<A = Global>),
    first: A,
    second: B,
    labels: &[u64],
) -> Result<(), Fail> {
    let pair = crossed(first, second)?;
    same_least(rt, &pair, labels);
    same_atoms(rt, &pair, labels)
}

// Each kind comes first once, and second once.
#[test]
fn answers_agree_with_holds(rt: HostRuntime) -> Result<(), Fail> {
    let heap = rt.alloc();
    agrees(&rt, points(heap)?, tags()?, &grid(heap, &POINTS, &TAGS)?)?;
    agrees(&rt, tags()?, words(heap)?, &grid(heap, &TAGS, &WORDS)?)?;
    agrees(
        &rt,
        words(heap)?,
        points(heap)?,
        &grid(heap, &WORDS, &POINTS)?,
    )
}
