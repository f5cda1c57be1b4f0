// An automaton by the list of all things that steps lead to: its states are their places.
ghost use Rattle.std.specs.Prelude.{◌≡◌, ◌<◌, true, length};
ghost use Rattle.explore.specs.Listing.{numbers_of};
ghost use Rattle.explore.specs.Places.{place_of};
ghost use Rattle.explore.specs.Rounds.{entry_at};
ghost use Rattle.normal.specs.Lists.{Whole};

use explore::entry::Entry;
use explore::numbering::Lookup;
use explore::stepping::Stepping;
use minimize::automaton::TreeAutomaton;

// The steps, and the things that they lead to.
#[derive(Drop)]
pub struct Listed<'s, 'e, 'h, E, S> {
    pub steps: &'s S,
    pub entries: &'e [E],
    pub hints: &'h [u16],
}

impl<E: Entry, S: Stepping<E>> Listed<'_, '_, '_, E, S> {
    // The thing at place p.
    fn thing(&self, p: usize) -> E
        requires whole { Whole (S.Stepping.steps self.now.steps.now) E.Entry.equal self.now.entries.now }
        requires place { p < length self.now.entries.now }
        ensures is { result ≡ entry_at (S.Stepping.steps self.now.steps.now) self.now.entries.now p }
        ensures fine { (S.Stepping.steps self.now.steps.now).fine result ≡ true }
    {
        self.entries[p]
    }

    // The place of the thing.
    fn place(&self, e: &E) -> usize
        requires whole { Whole (S.Stepping.steps self.now.steps.now) E.Entry.equal self.now.entries.now }
        ensures { result ≡ place_of E.Entry.equal self.now.entries.now e.now }
    {
        let things = Lookup {
            entries: self.entries,
            hints: self.hints,
        };
        things.place(e)
    }
}

impl<E: Entry, S: Stepping<E>> TreeAutomaton for Listed<'_, '_, '_, E, S> {
    type Row = S::Row;

    ghost meaning = { λ m. numbers_of (S.Stepping.steps m.steps.now) E.Entry.equal m.entries.now };

    ghost letters = { λ m. (S.Stepping.steps m.steps.now).atoms };

    ghost prepared = { λ m p row. S.Stepping.prepared m.steps.now (entry_at (S.Stepping.steps m.steps.now) m.entries.now p) row };

    ghost sound = { λ m. S.Stepping.sound m.steps.now × Whole (S.Stepping.steps m.steps.now) E.Entry.equal m.entries.now };

    fn fit(&self) {
        self.steps.fit();
    }

    fn size(&self) -> usize {
        self.entries.len()
    }

    fn atoms(&self) -> usize {
        self.steps.atoms()
    }

    fn accepts(&self, p: usize) -> bool {
        self.steps.accepts(&self.thing(p))
    }

    fn none(&self, a: usize) -> usize {
        self.place(&self.steps.none(a))
    }

    fn single(&self, p: usize, a: usize) -> usize {
        self.place(&self.steps.single(&self.thing(p), a))
    }

    fn row(&self, p: usize) -> S::Row {
        self.steps.row(&self.thing(p))
    }

    fn double(&self, p: usize, row: &S::Row, q: usize, a: usize) -> usize {
        self.place(&self.steps.double(&self.thing(p), row, &self.thing(q), a))
    }
}
