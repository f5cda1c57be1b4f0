// All things that steps lead to.
ghost use Rattle.explore.specs.Listing.{Lists};
ghost use Rattle.explore.specs.Rounds.{Room};

use crate::entry::Entry;
use crate::full::Full;
use crate::numbering::Numbering;
use crate::rounds::all_rounds;
use crate::stepping::Stepping;

// Finds all things that the steps lead to, by rounds, and remembers the combination that led to each first. Answers how many.
pub fn explore<E: Entry, S: Stepping<E>>(
    steps: &S,
    entries: &mut [E],
    hints: &mut [u16],
    firsts: &mut [u16],
) -> Result<usize, Full>
    requires sound { S.Stepping.sound steps.now }
    requires room { Room entries.old firsts.old }
    ensures { Lists (S.Stepping.steps steps.now) E.Entry.equal entries.old result entries.new firsts.new }
{
    let mut found = Numbering::new(entries, hints);
    all_rounds(steps, &mut found, firsts)?;
    Ok(found.len())
}
