// What is printed of a table of atoms.
ghost use Rattle.std.specs.Prelude.{◌≡◌, [], ◌∷◌, ◌++◌, IfOk, string_bytes, decimal, OnOk};
ghost use Rattle.blocks.specs.Printing.{members, list_text, table_text};

use atoms::atom::Atom;
use atoms::table::AtomTable;
use itertools::Itertools;
use labels::set::GuardSet;
use std::alloc::{AllocError, Global};
use std::fmt::Write;

// A function and no `Display`, since the table is another crate's type.
pub fn print_table(heap: Global, table: &AtomTable) -> Result<String, AllocError>
    ensures { IfOk result (λ s. string_bytes s ≡ table_text table.now.atoms table.now.guards table.now.count) }
{
    let mut out = String::from_str(heap, "atom label yes\n")?;
    for (k, atom) in table.as_slice().iter().enumerate() {
        push_atom(heap, &mut out, k, *atom, table.guards())?;
    }
    Ok(out)
}

// Adds the line of the k-th atom, in a book of `count` guards.
fn push_atom(
    heap: Global,
    out: &mut String,
    k: usize,
    atom: Atom,
    count: u32,
) -> Result<(), AllocError>
    ensures { OnOk result (string_bytes out.new ≡ string_bytes out.old ++ (decimal k ++ (32 ∷ (decimal atom.label ++ (32 ∷ (list_text (members count atom.guards.0) ++ (10 ∷ []))))))) }
{
    let label = atom.label;
    let list = print_set(heap, atom.guards, count)?;
    write!(out, "{k} {label} {list}\n")?;
    Ok(())
}

// The guards of the set below `count`, with commas between them, or a dash.
fn print_set(heap: Global, set: GuardSet, count: u32) -> Result<String, AllocError>
    ensures { IfOk result (λ s. string_bytes s ≡ list_text (members count set.0)) }
{
    let mut out = (0..count).filter(|g| set.contains(*g)).join(heap, ",")?;
    if out.is_empty() {
        out.push('-')?;
    }
    Ok(out)
}
