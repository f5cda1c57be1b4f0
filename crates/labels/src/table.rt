// The guards of the labels 0, 1, 2 ..
ghost use Rattle.std.specs.Prelude.{◌≡◌, ℕ, ◌≤◌, ◌≢◌, true};
ghost use Rattle.labels.specs.Meaning.{IsLeast};
ghost use Rattle.labels.specs.Sets.{has};
ghost use Rattle.labels.specs.Tables.{set_at, table_meaning};

use crate::set::GuardSet;
use std::convert::AsSlice;

// For each label the guards that hold of it, so that each question is one pass over the sets; and how many guards there are.
#[derive(Drop)]
pub struct GuardTable<S: AsSlice<GuardSet>> {
    pub sets: S,
    pub guards: u32,
    // Each type that counts guards says so itself: with a type for the count, each clause that names it would name a field more.
    ghost few: { guards ≤ 32 },
    ghost known: { (x g : ℕ) → guards ≤ g → has (set_at (S.items sets) x) g ≢ true },
}

impl<S: AsSlice<GuardSet>> GuardTable<S> {
    pub fn label(&self, x: u64) -> bool
        ensures { result ≡ (table_meaning (S.items self.now.sets) self.now.guards).label x }
    {
        x < self.sets.as_slice().len() as u64
    }

    pub fn holds(&self, guard: u32, x: u64) -> bool
        ensures { result ≡ (table_meaning (S.items self.now.sets) self.now.guards).holds guard x }
    {
        let set = self.sets.as_slice().get(x as usize);
        set.is_some_and(|set| set.contains(guard))
    }

    // The first label with every guard of `yes` and none of `no`.
    #[tactic(auto, using(crate::proofs::Tables::table_least))]
    pub fn least(&self, yes: GuardSet, no: GuardSet) -> Option<u64>
        ensures { IsLeast (table_meaning (S.items self.now.sets) self.now.guards) yes.0 no.0 result }
    {
        let mut sets = self.sets.as_slice().iter();
        let first = sets.position(|set| set.fits(yes, no));
        first.map(|i| i as u64)
    }
}
