// The values of a pair's guards.
ghost use Rattle.std.specs.Prelude.{◌≡◌, ℕ, ◌+◌, ◌<◌, ◌≤◌, max, Bool, true, length, slice_set, is_some, Some, None, Option, Decides, ◌≢◌};
ghost use Rattle.pairs.specs.Pairs.{value_at};
ghost use Rattle.pairs.specs.Search.{Small, Given, Gives, Firsts, Seconds, Gathers};
ghost use Rattle.std.specs.Fn.{AnyResult};
ghost use Rattle.pairs.specs.declared.value.PairValue.{PairValue};

use crate::value::PairValue;
use labels::set::GuardSet;

// The values by their guards, one each at most; the guards that have one lie below `guards`. An array, not a map: a pair is made
// without memory from the heap, and guards are its indices.
#[derive(Drop)]
pub struct Values {
    list: [Option<PairValue>; 32],
    guards: u32,
    ghost long: { length list ≡ 32 },
    // Each type that counts guards says so itself: with a type for the count, each clause that names it would name a field more.
    ghost few: { guards ≤ 32 },
    ghost known: { (g : ℕ) → guards ≤ g → is_some (value_at list g) ≢ true },
    ghost small: { Small list },
}

impl Values {
    // No guard has a value.
    pub fn none() -> Values
        ensures none { (g : ℕ) → value_at result.list g ≡ None }
        ensures guards { result.guards ≡ 0 }
    {
        let list = [None; 32];
        Values { list, guards: 0 }
    }

    pub fn count(&self) -> u32
        ensures { result ≡ self.now.guards }
    {
        self.guards
    }

    pub fn get(&self, guard: u32) -> Option<PairValue>
        ensures { result ≡ value_at self.now.list guard }
    {
        self.list.get(guard as usize).copied().flatten()
    }

    // Gives the guard its value.
    pub fn put(&mut self, guard: u32, value: PairValue)
        requires guard { guard < 32 }
        requires first { value.first < 32 }
        requires second { value.second < 32 }
        ensures list { self.new.list ≡ slice_set self.old.list guard (Some value) }
        ensures guards { self.new.guards ≡ max self.old.guards (guard + 1) }
    {
        self.list[guard as usize] = Some(value);
        self.guards = self.guards.max(guard + 1);
    }

    // Each of the guards has a value.
    pub fn all_given(&self, guards: GuardSet) -> bool
        ensures { Decides result (Given self.now.list guards.0) }
    {
        (0..32).all(|g| !guards.contains(g) || self.get(g).is_some())
    }

    // The first parts of the values of the guards.
    pub fn firsts(&self, guards: GuardSet) -> GuardSet
        ensures { Firsts self.now.list guards.0 result.0 }
    {
        self.gather(guards, |_| true, |v| v.first)
    }

    // The second parts of those whose first part is in `ins`.
    pub fn seconds(&self, guards: GuardSet, ins: GuardSet) -> GuardSet
        ensures { Seconds self.now.list guards.0 ins.0 result.0 }
    {
        self.gather(guards, |v| ins.contains(v.first), |v| v.second)
    }

    // A part of each value of the guards that is to be kept.
    fn gather<K: Fn(PairValue) -> bool, P: Fn(PairValue) -> u32>(
        &self,
        guards: GuardSet,
        keep: K,
        part: P,
    ) -> GuardSet
        requires keep { K.IsAlwaysCallable keep }
        requires part { P.IsAlwaysCallable part }
        requires small { (v : PairValue) → v.first < 32 → v.second < 32 → AnyResult P.Fn part (v, tt) (λ k. k < 32) }
        ensures { (kept : PairValue → Bool) (number : PairValue → ℕ) → Gives K.Fn keep kept → Gives P.Fn part number → Gathers self.now.list guards.0 kept number result.0 }
    {
        let mut set = GuardSet::none();
        for (g, value) in self.list.iter().enumerate() {
            // first whether the guard is asked for, which takes no look at the value
            if guards.contains(g as u32)
                && let Some(v) = value
                && keep(*v)
            {
                set = set.with(part(*v));
            }
        }
        set
    }
}
