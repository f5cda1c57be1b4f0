// The pair of two narrow kinds: a label of each, and guards that hold where a guard of each holds.
ghost use Rattle.std.specs.Prelude.{◌≡◌, ℕ, None};
ghost use Rattle.labels.specs.Meaning.{Fresh};
ghost use Rattle.pairs.specs.Pairs.{pair_book, pair_label, pair_meaning, value_at};

mod search;

use crate::pair::search::Path;
use crate::value::PairValue;
use crate::values::Values;
use labels::kind::{AddFault, LabelKind, NarrowKind};
use labels::set::GuardSet;

// Second parts lie below this.
const SPAN: u64 = 0x1_0000_0000;

// Two kinds, and the values of the pair's guards.
#[derive(Drop)]
pub struct Pair<A, B> {
    first: A,
    second: B,
    values: Values,
}

impl<A: NarrowKind, B: NarrowKind> Pair<A, B> {
    // The pairs of the labels of two kinds, with no guard.
    pub fn new(first: A, second: B) -> Pair<A, B>
        ensures parts { (result.first ≡ first) × (result.second ≡ second) }
        ensures meaning { Fresh (pair_meaning (A.LabelKind.book first).meaning (B.LabelKind.book second).meaning result.values.list result.values.guards) (pair_label (A.LabelKind.book first).meaning (B.LabelKind.book second).meaning) }
        ensures values { (g : ℕ) → value_at result.values.list g ≡ None }
    {
        let values = Values::none();
        Pair {
            first,
            second,
            values,
        }
    }
}

impl<A: NarrowKind, B: NarrowKind> LabelKind for Pair<A, B> {
    type Value = PairValue;

    ghost book = { λ p. pair_book (A.LabelKind.book p.first).meaning (B.LabelKind.book p.second).meaning p.values.list p.values.guards };

    fn lawful(&self) {
        self.first.lawful();
        self.second.lawful();
        self.narrow();
    }

    fn count(&self) -> u32 {
        self.values.count()
    }

    fn label(&self, x: u64) -> bool {
        self.first.label(x / SPAN) && self.second.label(x % SPAN)
    }

    fn holds(&self, guard: u32, x: u64) -> bool {
        self.label(x)
            && self.values.get(guard).is_some_and(|v| {
                self.first.holds(v.first, x / SPAN) && self.second.holds(v.second, x % SPAN)
            })
    }

    fn least(&self, yes: GuardSet, no: GuardSet) -> Option<u64> {
        if !self.values.all_given(yes) {
            return None;
        }
        let start = Path {
            yes,
            no,
            asked: self.values.firsts(no),
            next: 0,
            ins: self.values.firsts(yes),
            outs: GuardSet::none(),
        };
        self.search(start, None)
    }

    fn add(&mut self, guard: u32, value: &PairValue) -> Result<(), AddFault> {
        if guard > 31 {
            return Err(AddFault::Guard);
        }
        // each part has at most 32 guards
        self.first.lawful();
        self.second.lawful();
        let v = *value;
        if v.first >= self.first.count() || v.second >= self.second.count() {
            return Err(AddFault::Value);
        }
        if self.values.get(guard).is_some() {
            return Err(AddFault::Full);
        }
        self.values.put(guard, v);
        Ok(())
    }
}
