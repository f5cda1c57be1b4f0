// Steps between items by a lent list.
ghost use Rattle.explore.specs.Listing.{Lists};
ghost use Rattle.explore.specs.Rounds.{Room};
ghost use Rattle.explore_tests.specs.Examples.{note_steps, Sound};

use crate::item::Item;
use explore::entry::Entry;
use explore::full::Full;
use explore::search::explore;
use explore::stepping::Stepping;

// Each note leads to its entry, under the same key. An entry may lie past the last note: whoever asks has to know that none does.
#[derive(Drop)]
pub struct Notes<'a> {
    pub next: &'a [u32],
}

impl Stepping<Item> for Notes<'_> {
    type Row = ();

    ghost steps = { λ s. note_steps s.next.now };

    ghost prepared = { λ s p row. Unit {0} };

    ghost sound = { λ s. Sound s.next.now };

    fn fit(&self) {}

    fn accepts(&self, e: &Item) -> bool {
        e.note == 0
    }

    fn atoms(&self) -> usize {
        1
    }

    fn none(&self, _a: usize) -> Item {
        Item { key: 7, note: 0 }
    }

    fn single(&self, p: &Item, _a: usize) -> Item {
        let note = self.next[p.note as usize];
        Item { key: p.key, note }
    }

    fn row(&self, _p: &Item) {}

    fn double(&self, _p: &Item, _row: &(), q: &Item, _a: usize) -> Item {
        *q
    }
}

// All items that steps lead to.
pub fn items_of<S: Stepping<Item>>(
    steps: &S,
    entries: &mut [Item],
    hints: &mut [u16],
    firsts: &mut [u16],
) -> Result<usize, Full>
    requires sound { S.Stepping.sound steps.now }
    requires room { Room entries.old firsts.old }
    ensures { Lists (S.Stepping.steps steps.now) ⟦<Item as Entry>⟧.equal entries.old result entries.new firsts.new }
{
    explore(steps, entries, hints, firsts)
}
