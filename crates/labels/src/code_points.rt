// Code points: labels 0 to 10FFFF hex without the surrogates D800 to DFFF; a guard is given by ranges.
ghost use Rattle.std.specs.Prelude.{◌≡◌, ℕ, ◌+◌, ◌<◌, ◌≤◌, length, IfOk, vec_len, vec_capacity, nat_le};
ghost use Rattle.labels.specs.Edges.{Tried};
ghost use Rattle.labels.specs.Meaning.{Fresh};
ghost use Rattle.labels.specs.Ranges.{code_label, code_meaning, covered, given_at, in_range, range_formed};
ghost use Rattle.labels.specs.Sets.{has};

use crate::kind::{AddFault, LabelKind, NarrowKind};
use crate::range::{Given, Range, is_surrogate, skip_surrogates};
use crate::set::GuardSet;
use std::alloc::{AllocError, Global};

// The largest code point.
const LAST: u32 = 0x10FFFF;

// The code points, and the ranges of their guards, 64 at most.
#[derive(Drop)]
pub struct CodePoints {
    ranges: Vec<Given>,
    guards: u32,
    ghost limit: { vec_len ranges ≤ 64 },
    ghost room: { 64 ≤ vec_capacity ranges },
    // Each type that counts guards says so itself: with a type for the count, each clause that names it would name a field more.
    ghost few: { guards ≤ 32 },
    ghost known: { (k : ℕ) → k < length ranges.items → (given_at ranges.items k).guard < guards },
    ghost ended: { (k : ℕ) → k < length ranges.items → (given_at ranges.items k).range.high ≤ 0x10FFFF },
}

impl CodePoints {
    // The code points with no guard, with memory for all ranges that they may be given.
    pub fn new(heap: Global) -> Result<CodePoints, AllocError>
        ensures meaning { IfOk result (λ k. Fresh (code_meaning k.ranges.items k.guards) code_label) }
        ensures ranges { IfOk result (λ k. vec_len k.ranges ≡ 0) }
    {
        let ranges = Vec::with_capacity(heap, 64)?;
        Ok(CodePoints { ranges, guards: 0 })
    }

    // The guards with a range that has x.
    #[tactic(auto, using(crate::proofs::Covering::covered_more))]
    fn guards_at(&self, x: u32) -> GuardSet
        ensures { (g : ℕ) → has result.0 g ≡ covered self.now.ranges.items g x }
    {
        let mut set = GuardSet::none();
        for given in &self.ranges {
            if given.range.has(x) {
                set = set.with(given.guard);
            }
        }
        set
    }
}

impl LabelKind for CodePoints {
    type Value = Range;

    ghost book = { λ k. record { meaning = code_meaning k.ranges.items k.guards; formed = range_formed; labels = in_range; full = λ gs _. nat_le 64 (vec_len k.ranges + length gs) } };

    #[tactic(auto, using(crate::specs::Laws::code_lawful))]
    fn lawful(&self) {}

    fn count(&self) -> u32 {
        self.guards
    }

    fn label(&self, x: u64) -> bool {
        x <= u64::from(LAST) && !is_surrogate(x as u32)
    }

    fn holds(&self, guard: u32, x: u64) -> bool {
        self.label(x) && self.guards_at(x as u32).contains(guard)
    }

    // What fits is 0, or lies where a range begins, or where one has ended: elsewhere nothing changes.
    fn least(&self, yes: GuardSet, no: GuardSet) -> Option<u64> {
        let lesser = |best: Option<u32>, x: u32|
            ensures { Tried (code_meaning self.entry.now.ranges.items self.entry.now.guards) yes.0 no.0 x best result }
        {
            let less = best.is_none_or(|known| x < known);
            if less && self.label(u64::from(x)) && self.guards_at(x).fits(yes, no) {
                Some(x)
            } else {
                best
            }
        };
        // A loop, not a chain: `flat_map` to the two edges of a range gets no proof.
        let mut best = lesser(None, 0);
        for given in &self.ranges {
            best = lesser(best, skip_surrogates(given.range.low));
            best = lesser(best, skip_surrogates(given.range.high + 1));
        }
        best.map(u64::from)
    }

    #[tactic(auto, using(crate::proofs::Covering::covered_push))]
    fn add(&mut self, guard: u32, value: &Range) -> Result<(), AddFault> {
        if guard > 31 {
            return Err(AddFault::Guard);
        }
        let range = *value;
        if range.low > range.high || range.high > LAST {
            return Err(AddFault::Value);
        }
        if self.ranges.len() == 64 {
            return Err(AddFault::Full);
        }
        self.ranges.push_reserved(Given { guard, range });
        self.guards = self.guards.max(guard + 1);
        Ok(())
    }
}

impl NarrowKind for CodePoints {
    fn largest(&self) -> u32 {
        LAST
    }
}
