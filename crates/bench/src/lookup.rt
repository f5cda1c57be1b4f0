// The atom of a label.
ghost use Rattle.std.specs.Prelude.{◌≡◌, ℕ, ◌<◌, MatchOption, ◌≢◌};
ghost use Rattle.atoms.specs.Entries.{set_at};
ghost use Rattle.labels.specs.Sets.{has};
ghost use Rattle.bench.specs.Lookups.{Names};

use atoms::table::AtomTable;
use labels::kind::LabelKind;
use labels::set::GuardSet;

// The place of the label's atom in the table.
pub fn atom_of<K: LabelKind>(kind: &K, table: &AtomTable, x: u64) -> Option<usize>
    ensures { Names (K.LabelKind.book kind.now).meaning table.now.atoms table.now.count x result }
{
    // By cases: the lookup answers an Option itself, so `then` would need a `flatten` after it.
    if kind.label(x) {
        find(table, guards_of(kind, x))
    } else {
        None
    }
}

// The guards that hold of the label.
fn guards_of<K: LabelKind>(kind: &K, x: u64) -> GuardSet
    ensures { (g : ℕ) → has result.0 g ≡ (K.LabelKind.book kind.now).meaning.holds g x }
{
    kind.lawful();
    GuardSet::from_fn(|g| kind.holds(g, x))
}

// The place of the atom with exactly these guards.
fn find(table: &AtomTable, set: GuardSet) -> Option<usize>
    ensures { MatchOption result ((k : ℕ) → k < table.now.count → set_at table.now.atoms k ≢ set.0) (λ k. (k < table.now.count) × (set_at table.now.atoms k ≡ set.0)) }
{
    table.as_slice().iter().position(|atom| atom.guards == set)
}
