// Measures how long the atoms of large guard books take, and writes a line for each book to standard error.
#![tactic(auto)]

mod books;

use atoms::fault::TooManyAtoms;
use atoms::find::atoms;
use atoms::table::AtomTable;
use books::{random_words, split_points, split_words};
use labels::kind::LabelKind;
use std::io;
use std::time::Instant;

// How often each book is read; the time is the average.
const RUNS: u32 = 10;

fn main(rt: HostRuntime) -> anyhow::Result<()> {
    let heap = rt.alloc();
    measure(&rt, "64 random patterns", &random_words(heap)?)?;
    measure(
        &rt,
        "64 patterns, 16 atoms from guard 3 on",
        &split_words(heap)?,
    )?;
    measure(
        &rt,
        "64 ranges, 16 atoms from guard 3 on",
        &split_points(heap)?,
    )?;
    Ok(())
}

fn measure<K: LabelKind>(rt: &HostRuntime, what: &str, kind: &K) -> io::Result<()> {
    let mut table = AtomTable::fresh();
    // overwritten, as there is one run at least
    let mut answer = Err(TooManyAtoms);
    let start = Instant::now(rt)?;
    for _ in 0..RUNS {
        answer = atoms(kind, &mut table);
    }
    let micros = start.elapsed(rt)?.as_micros() / u128::from(RUNS);
    match answer {
        Ok((count, guards)) => eprintln!(rt; "{what}: {micros} us, {count} atoms, {guards} guards"),
        Err(fault) => eprintln!(rt; "{what}: {micros} us, {fault}"),
    }
}
