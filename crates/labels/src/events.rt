// Event words: labels 0 to 65535; a guard is given by patterns of their bits.
ghost use Rattle.std.specs.Prelude.{◌≡◌, ◌+◌, ◌<◌, ◌≤◌, length, IfOk, string_bytes, nat_le, nat_lt};
ghost use Rattle.labels.specs.Masks.{admits};
ghost use Rattle.labels.specs.Meaning.{Fresh};
ghost use Rattle.labels.specs.Patterns.{pattern_formed, matches};
ghost use Rattle.labels.specs.Tables.{table_meaning, Marked};

use crate::kind::{AddFault, LabelKind, NarrowKind};
use crate::pattern::Pattern;
use crate::set::GuardSet;
use crate::table::GuardTable;
use std::alloc::{AllocError, Global};

// The words of 16 bits, and how many patterns their guards have, 64 at most.
#[derive(Drop)]
pub struct EventWords {
    table: GuardTable<Vec<GuardSet>>,
    patterns: usize,
    ghost long: { length table.sets.items ≡ 65536 },
    ghost limit: { patterns ≤ 64 },
}

impl EventWords {
    // The event words with no guard.
    pub fn new(heap: Global) -> Result<EventWords, AllocError>
        ensures meaning { IfOk result (λ k. Fresh (table_meaning k.table.sets.items k.table.guards) (λ x. nat_lt x 65536)) }
        ensures patterns { IfOk result (λ k. k.patterns ≡ 0) }
    {
        let sets = vec![in heap; GuardSet(0); 65536]?;
        Ok(EventWords {
            table: GuardTable { sets, guards: 0 },
            patterns: 0,
        })
    }
}

// Hands the questions on to the table, as tags do: the language has no delegation.
impl LabelKind for EventWords {
    type Value = String;

    ghost book = { λ k. record { meaning = table_meaning k.table.sets.items k.table.guards; formed = λ v. pattern_formed (string_bytes v); labels = λ v. matches (string_bytes v); full = λ gs _. nat_le 64 (k.patterns + length gs) } };

    #[tactic(auto, using(crate::specs::Laws::table_lawful))]
    fn lawful(&self) {}

    fn count(&self) -> u32 {
        self.table.guards
    }

    fn label(&self, x: u64) -> bool {
        self.table.label(x)
    }

    fn holds(&self, guard: u32, x: u64) -> bool {
        self.table.holds(guard, x)
    }

    fn least(&self, yes: GuardSet, no: GuardSet) -> Option<u64> {
        self.table.least(yes, no)
    }

    fn add(&mut self, guard: u32, value: &String) -> Result<(), AddFault> {
        if guard > 31 {
            return Err(AddFault::Guard);
        }
        let pattern = Pattern::read(value.as_bytes()).ok_or(AddFault::Value)?;
        if self.patterns == 64 {
            return Err(AddFault::Full);
        }
        // counted first: only guards below the count stand in the sets
        self.table.guards = self.table.guards.max(guard + 1);
        mark(&mut self.table.sets, guard, pattern);
        self.patterns += 1;
        Ok(())
    }
}

impl NarrowKind for EventWords {
    fn largest(&self) -> u32 {
        65535
    }
}

// Joins the guard to the sets of the words that the pattern admits.
fn mark(sets: &mut [GuardSet], guard: u32, pattern: Pattern)
    requires long { length sets.old ≤ 65536 }
    requires small { guard < 32 }
    ensures { Marked sets.old guard (admits pattern) sets.new }
{
    for (i, set) in sets.iter_mut().enumerate() {
        if pattern.has(i as u32) {
            *set = set.with(guard);
        }
    }
}
