// Finds the atoms of a kind, guard by guard.
ghost use Rattle.std.specs.Prelude.{◌≡◌, ℕ, ◌+◌, ◌<◌, ◌≤◌, false};
ghost use Rattle.labels.specs.Sets.{has};
ghost use Rattle.atoms.specs.Drafts.{Covers, Finds, first, Gathers, Keeps};

use crate::atom::Atom;
use crate::fault::TooManyAtoms;
use arrayvec::ArrayVec;
use labels::kind::LabelKind;
use labels::set::GuardSet;

// At most 16 atoms.
pub type Draft = ArrayVec<Atom, 16>;

// All atoms of the kind by rising label, or the refusal where there are more than 16.
pub fn all_atoms<K: LabelKind>(kind: &K) -> Result<Draft, TooManyAtoms>
    ensures { Finds (K.LabelKind.book kind.now).meaning result }
{
    kind.lawful();
    let mut atoms = Draft::new();
    keep(kind, GuardSet::none(), 0, &mut atoms)?;
    for g in 0..kind.count() {
        atoms = divide(kind, g, &atoms)?;
    }
    atoms.sort_unstable_by_key(|atom| atom.label);
    Ok(atoms)
}

// The atoms of the first g + 1 guards, from those of the first g: each with the guard in, then out.
fn divide<K: LabelKind>(kind: &K, g: u32, whole: &[Atom]) -> Result<Draft, TooManyAtoms>
    requires small { g < 32 }
    requires gathered { Covers (first g (K.LabelKind.book kind.now).meaning) (λ _. Unit) whole.now }
    ensures { Gathers (g + 1) (K.LabelKind.book kind.now).meaning result }
{
    let mut parts = Draft::new();
    for atom in whole {
        let set = atom.guards;
        keep(kind, set.with(g), g + 1, &mut parts)?;
        keep(kind, set, g + 1, &mut parts)?;
    }
    Ok(parts)
}

// Asks for the least label at which, of the first `count` guards, exactly those of `set` hold.
fn keep<K: LabelKind>(
    kind: &K,
    set: GuardSet,
    count: u32,
    parts: &mut Draft,
) -> Result<(), TooManyAtoms>
    requires few { count ≤ 32 }
    requires only { (g : ℕ) → count ≤ g → has set.0 g ≡ false }
    ensures { Keeps (first count (K.LabelKind.book kind.now).meaning) set.0 parts.old result parts.new }
{
    if let Some(label) = kind.least(set, set.others(count)) {
        let atom = Atom { label, guards: set };
        parts.try_push(atom).map_err(|_| TooManyAtoms)?;
    }
    Ok(())
}
