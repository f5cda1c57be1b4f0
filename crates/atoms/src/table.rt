// The table of a guard book's atoms.
ghost use Rattle.std.specs.Prelude.{◌≡◌, ℕ, ◌<◌, ◌≤◌, true, length, take, ◌≢◌};
ghost use Rattle.labels.specs.Sets.{has};
ghost use Rattle.atoms.specs.Entries.{atom_at, label_at, set_at, Sound, Unwritten, AtomAt};

use crate::atom::Atom;

// At most 16 atoms by rising label, and the number of guards they speak of. Fresh, or written by `atoms`.
// The count stands beside the array, since a table is a record of fixed size whose unused entries are zero.
#[derive(Clone, Copy, Debug, PartialEq, Eq)]
pub struct AtomTable {
    atoms: [Atom; 16],
    count: usize,
    guards: u32,
    ghost long: { length atoms ≡ 16 },
    ghost some: { 0 < count },
    ghost within: { count ≤ 16 },
    // Each type that counts guards says so itself: with a type for the count, each clause that names it would name a field more.
    ghost few: { guards ≤ 32 },
    ghost rises: { (i j : ℕ) → i < j → j < count → label_at atoms i < label_at atoms j },
    ghost apart: { (i j : ℕ) → i < j → j < count → set_at atoms i ≢ set_at atoms j },
    ghost known: { (k g : ℕ) → guards ≤ g → has (set_at atoms k) g ≢ true },
    ghost unlabelled: { (k : ℕ) → count ≤ k → label_at atoms k ≡ 0 },
    ghost unguarded: { (k : ℕ) → count ≤ k → set_at atoms k ≡ 0 },
}

impl AtomTable {
    // One atom without guards, label 0, and no guards.
    pub fn fresh() -> AtomTable
        ensures { Unwritten result.atoms result.count result.guards }
    {
        AtomTable::of_atoms(&[Atom::default()], 0)
    }

    // These atoms, which speak of the first `guards` guards.
    pub(crate) fn of_atoms(found: &[Atom], guards: u32) -> AtomTable
        requires fits { length found.now ≤ 16 }
        requires sound { Sound found.now (length found.now) guards }
        ensures atoms { (k : ℕ) → atom_at result.atoms k ≡ atom_at found.now k }
        ensures count { result.count ≡ length found.now }
        ensures guards { result.guards ≡ guards }
    {
        let mut atoms = [Atom::default(); 16];
        let count = found.len();
        atoms[..count].copy_from_slice(found);
        AtomTable {
            atoms,
            count,
            guards,
        }
    }

    // How many atoms there are.
    pub fn count(&self) -> usize
        ensures { result ≡ self.now.count }
    {
        self.count
    }

    // How many guards the atoms speak of.
    pub fn guards(&self) -> u32
        ensures { result ≡ self.now.guards }
    {
        self.guards
    }

    // The atoms, by rising label.
    pub fn as_slice(&self) -> &[Atom]
        ensures { result.now ≡ take self.now.count self.now.atoms }
    {
        &self.atoms[..self.count]
    }

    // The atom at place k; none past the last.
    pub fn atom(&self, k: usize) -> Option<Atom>
        ensures { AtomAt self.now.atoms self.now.count k result }
    {
        self.as_slice().get(k).copied()
    }
}
