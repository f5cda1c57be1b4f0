// A bench of shelves.
ghost use Rattle.std.specs.Prelude.{◌≡◌, ◌≤◌, length, MatchOption};
ghost use Rattle.bench.specs.Benches.{shelves_in, AllSound, Opened, Stored};

use crate::shelf::{SHELF, clear};
use atoms::table::AtomTable;

// How many shelves a bench has at most.
const SHELVES: usize = 8;

// Shelves over the atoms of one table, in bytes that are lent.
#[derive(Drop)]
pub struct Bench<'a> {
    pub(crate) table: AtomTable,
    pub(crate) bytes: &'a mut [u8],
    ghost sound: { AllSound table.count bytes.now },
}

impl<'a> Bench<'a> {
    // Makes a fresh shelf of each whole 16,945 bytes, 8 at most.
    pub fn open(table: AtomTable, bytes: &'a mut [u8]) -> Bench<'a>
        ensures table { result.table ≡ table }
        ensures opened { Opened bytes.old result.bytes.now }
        ensures lent { result.bytes.ghost_name ≡ bytes.entry.ghost_name }
    {
        clear_all(bytes);
        Bench { table, bytes }
    }

    // How many shelves there are.
    pub fn shelves(&self) -> usize
        ensures { result ≡ shelves_in (length self.now.bytes.now) }
    {
        shelves_in(self.bytes)
    }

    // The table of the atoms that the shelves go by.
    pub fn atoms(&self) -> AtomTable
        ensures { result ≡ self.now.table }
    {
        self.table
    }

    // The bytes of shelf k.
    pub fn shelf(&self, k: usize) -> Option<&[u8]>
        ensures { MatchOption result (shelves_in (length self.now.bytes.now) ≤ k) (λ s. Stored self.now.table.count self.now.bytes.now k s.now) }
    {
        (k < self.shelves()).then(|| &self.bytes[k * SHELF..k * SHELF + SHELF])
    }
}

// How many shelves the bytes have place for.
fn shelves_in(bytes: &[u8]) -> usize
    ensures { result ≡ shelves_in (length bytes.now) }
{
    (bytes.len() / SHELF).min(SHELVES)
}

// A fresh shelf at each place.
fn clear_all(bytes: &mut [u8])
    ensures { Opened bytes.old bytes.new }
{
    // By index: no clause says what the pieces of `chunks_exact_mut` leave in the bytes.
    for k in 0..shelves_in(bytes) {
        clear(&mut bytes[k * SHELF..k * SHELF + SHELF]);
    }
}
