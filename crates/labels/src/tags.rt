// Tags: labels 0 to 63; a guard is given by single tags.
ghost use Rattle.std.specs.Prelude.{◌≡◌, false, length, ◌==◌, nat_lt};
ghost use Rattle.labels.specs.Meaning.{Fresh};
ghost use Rattle.labels.specs.Tables.{table_meaning};

use crate::kind::{AddFault, LabelKind, NarrowKind};
use crate::set::GuardSet;
use crate::table::GuardTable;

#[derive(Clone, Copy, Debug, PartialEq, Eq)]
pub struct Tag(pub u32);

#[derive(Drop)]
pub struct Tags {
    table: GuardTable<[GuardSet; 64]>,
    ghost long: { length table.sets ≡ 64 },
}

impl Tags {
    // The tags with no guard.
    pub fn new() -> Tags
        ensures { Fresh (table_meaning result.table.sets result.table.guards) (λ x. nat_lt x 64) }
    {
        let sets = [GuardSet(0); 64];
        Tags {
            table: GuardTable { sets, guards: 0 },
        }
    }
}

// Tags and event words hand the questions on to their table: the language has no delegation.
impl LabelKind for Tags {
    type Value = Tag;

    ghost book = { λ k. record { meaning = table_meaning k.table.sets k.table.guards; formed = λ v. nat_lt v.0 64; labels = λ v x. (x == v.0); full = λ _ _. false } };

    #[tactic(auto, using(crate::specs::Laws::table_lawful))]
    fn lawful(&self) {}

    fn count(&self) -> u32 {
        self.table.guards
    }

    fn label(&self, x: u64) -> bool {
        self.table.label(x)
    }

    fn holds(&self, guard: u32, x: u64) -> bool {
        self.table.holds(guard, x)
    }

    fn least(&self, yes: GuardSet, no: GuardSet) -> Option<u64> {
        self.table.least(yes, no)
    }

    fn add(&mut self, guard: u32, value: &Tag) -> Result<(), AddFault> {
        if guard > 31 {
            return Err(AddFault::Guard);
        }
        let tag = value.0;
        if tag > 63 {
            return Err(AddFault::Value);
        }
        let i = tag as usize;
        // counted first: only guards below the count stand in the sets
        self.table.guards = self.table.guards.max(guard + 1);
        self.table.sets[i] = self.table.sets[i].with(guard);
        Ok(())
    }
}

impl NarrowKind for Tags {
    fn largest(&self) -> u32 {
        63
    }
}
