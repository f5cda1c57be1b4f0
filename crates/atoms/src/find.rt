// Reads the atoms of a kind into a table.
ghost use Rattle.atoms.specs.Tables.{Reads};

use crate::fault::TooManyAtoms;
use crate::split::all_atoms;
use crate::table::AtomTable;
use labels::kind::LabelKind;

// Writes the atoms of the kind into the table, and answers how many atoms and how many guards there are. The caller hands the
// record in, and it is unchanged where the call is refused; the answer is two plain numbers, as hosts read them.
pub fn atoms<K: LabelKind>(kind: &K, table: &mut AtomTable) -> Result<(usize, u32), TooManyAtoms>
    ensures { Reads (K.LabelKind.book kind.now).meaning table.old result table.new }
{
    kind.lawful();
    let found = all_atoms(kind)?;
    *table = AtomTable::of_atoms(&found, kind.count());
    Ok((table.count(), table.guards()))
}
