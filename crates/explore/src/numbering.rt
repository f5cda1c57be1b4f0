// A container that numbers entries as they are found, each once.
ghost use Rattle.std.specs.Prelude.{◌≡◌, ℕ, ◌+◌, ◌<◌, ◌≤◌, length};
ghost use Rattle.explore.specs.Places.{place_of};
ghost use Rattle.explore.specs.Numbers.{Alike, At, Finds, Guesses, Numbers};

use crate::entry::Entry;

// Entries, and hints that say where an entry may stand.
#[derive(Clone, Copy, Debug)]
pub struct Lookup<'e, 'h, E> {
    pub entries: &'e [E],
    // Lent cells of 16 bits: one more than the place, 0 for no hint.
    pub hints: &'h [u16],
}

impl<E: Entry> Lookup<'_, '_, E> {
    // The place of the entry; the number of entries where it is not there, since steps of an automaton are total.
    pub fn place(&self, e: &E) -> usize
        requires once { (i j : ℕ) → i < j → j < length self.now.entries.now → Alike self.now.entries.now i j → ⊥ }
        ensures { result ≡ place_of E.Entry.equal self.now.entries.now e.now }
    {
        self.find(e).unwrap_or(self.entries.len())
    }

    // The place of the entry: where the hints say, or else by the plain search.
    pub(crate) fn find(&self, e: &E) -> Option<usize>
        ensures { Finds self.now.entries.now (length self.now.entries.now) e.now result }
    {
        // Not `or_else`: behind a bound, what its closure answers is known only by a clause of its own, longer than this.
        match self.guess(e) {
            Some(k) => Some(k),
            None => self.search(e),
        }
    }

    // The place of the entry if a hint leads to it.
    fn guess(&self, e: &E) -> Option<usize>
        ensures { Guesses self.now.entries.now (length self.now.entries.now) e.now result }
    {
        let start = e.hint() % HINTS;
        // Not a chain of `map_while` and `find`: what it finds is not proved to pass its test.
        for i in 0..LOOKS {
            let k = usize::from(self.hints.get((start + i) % HINTS)?.checked_sub(1)?);
            if self.entries.get(k).is_some_and(|x| x.same(e)) {
                return Some(k);
            }
        }
        None
    }

    fn search(&self, e: &E) -> Option<usize>
        ensures { Finds self.now.entries.now (length self.now.entries.now) e.now result }
    {
        self.entries.iter().position(|x| x.same(e))
    }
}

// How many hints there are, and how many of them are looked at for one entry.
const HINTS: usize = 8192;

const LOOKS: usize = 8;

// The slice is lent at its full length, so `len` says how many of its entries have numbers.
#[derive(Drop)]
pub struct Numbering<'e, 'h, E> {
    entries: &'e mut [E],
    hints: &'h mut [u16],
    len: usize,
    ghost within: { len ≤ length entries.now },
    ghost once: { (i j : ℕ) → i < j → j < len → Alike entries.now i j → ⊥ },
}

impl<'e, 'h, E: Entry> Numbering<'e, 'h, E> {
    // No entry yet; as many may come as the slice has places.
    pub fn new(entries: &'e mut [E], hints: &'h mut [u16]) -> Numbering<'e, 'h, E>
        ensures len { result.len ≡ 0 }
        ensures places { result.entries.now ≡ entries.old }
        ensures lent { result.entries.ghost_name ≡ entries.entry.ghost_name }
    {
        Numbering {
            entries,
            hints,
            len: 0,
        }
    }

    // How many entries have a number.
    pub fn len(&self) -> usize
        ensures { result ≡ self.now.len }
    {
        self.len
    }

    // The entry with number k.
    pub fn get(&self, k: usize) -> E
        requires { k < self.now.len }
        ensures { At self.now.entries.now k result }
    {
        self.entries[k]
    }

    // The number of the entry.
    pub fn find(&self, e: &E) -> Option<usize>
        ensures { Finds self.now.entries.now self.now.len e.now result }
    {
        let numbered = Lookup {
            entries: &self.entries[..self.len],
            hints: self.hints,
        };
        numbered.find(e)
    }

    // The number of the entry; where it has none, the next one, if there is a place.
    pub fn number(&mut self, e: E) -> Option<usize>
        ensures numbers { Numbers self.old.entries.now self.old.len e result self.new.entries.now self.new.len }
        ensures lent { self.new.entries.ghost_name ≡ self.old.entries.ghost_name }
    {
        if let Some(k) = self.find(&e) {
            return Some(k);
        }
        let n = self.len;
        if n >= self.entries.len() {
            return None;
        }
        self.entries[n] = e;
        note(self.hints, &e, n);
        self.len += 1;
        Some(n)
    }
}

// Has a hint lead to the entry with number k: the first free one of those looked at, or the last. No contract: each hint is checked
// where it is read, so that nothing rests on what stands in it.
fn note<E: Entry>(hints: &mut [u16], e: &E, k: usize) {
    let start = e.hint() % HINTS;
    let last = start + LOOKS - 1;
    let at = (start..last)
        .find(|at| hints.get(*at % HINTS) == Some(&0))
        .unwrap_or(last);
    if let Some(hint) = hints.get_mut(at % HINTS) {
        *hint = (k % 0xFFFF) as u16 + 1;
    }
}
