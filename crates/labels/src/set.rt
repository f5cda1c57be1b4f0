// Sets of guard numbers 0 to 31.
ghost use Rattle.std.specs.Prelude.{◌≡◌, ℕ, ◌<◌, ◌≤◌, min, true, false, not, ◌&&◌, ◌||◌, Decides, ◌==◌, nat_lt};
ghost use Rattle.labels.specs.Sets.{has, Between};

// Guard g is in the set where bit g is 1.
#[derive(Clone, Copy, Debug, Default, PartialEq, Eq)]
pub struct GuardSet(pub u32);

impl GuardSet {
    #[tactic(auto, using(crate::proofs::Bits::has_none))]
    pub fn none() -> GuardSet
        ensures { (g : ℕ) → has result.0 g ≡ false }
    {
        GuardSet(0)
    }

    // The set with one guard more; a number above 31 adds nothing.
    #[tactic(auto, using(crate::proofs::Bits::has_with))]
    pub fn with(self, guard: u32) -> GuardSet
        ensures { (g : ℕ) → has result.0 g ≡ (has self.0 g || (g == guard && nat_lt guard 32)) }
    {
        if guard < 32 {
            GuardSet(self.0 | 1 << guard)
        } else {
            self
        }
    }

    #[tactic(auto, using(crate::proofs::Bits::has_shifted, crate::proofs::Bits::has_above))]
    pub fn contains(self, guard: u32) -> bool
        ensures { result ≡ has self.0 guard }
    {
        guard < 32 && (self.0 >> guard) & 1 == 1
    }

    // Every guard of `other` is here.
    #[tactic(auto, using(crate::proofs::Bits::includes_decides))]
    pub fn includes(self, other: GuardSet) -> bool
        ensures { Decides result ((g : ℕ) → has other.0 g ≡ true → has self.0 g ≡ true) }
    {
        self.0 & other.0 == other.0
    }

    // No guard of `other` is here.
    #[tactic(auto, using(crate::proofs::Bits::excludes_decides))]
    pub fn excludes(self, other: GuardSet) -> bool
        ensures { Decides result ((g : ℕ) → has other.0 g ≡ true → has self.0 g ≡ false) }
    {
        self.0 & other.0 == 0
    }

    // Every guard of `yes` is here, and no guard of `no`.
    pub fn fits(self, yes: GuardSet, no: GuardSet) -> bool
        ensures { Decides result (Between yes.0 no.0 self.0) }
    {
        self.includes(yes) && self.excludes(no)
    }

    // The guards 0 to 31 for which `f` answers yes.
    pub fn from_fn<F: Fn(u32) -> bool>(f: F) -> GuardSet
        requires { (g : ℕ) → g < 32 → F.pre f g }
        ensures chosen { (g : ℕ) → g < 32 → F.post f g (has result.0 g) }
        ensures small { (g : ℕ) → 32 ≤ g → has result.0 g ≡ false }
    {
        let mut set = GuardSet::none();
        for g in 0..32 {
            if f(g) {
                set = set.with(g);
            }
        }
        set
    }

    // The guards below `count` that are not here.
    pub fn others(self, count: u32) -> GuardSet
        ensures { (g : ℕ) → has result.0 g ≡ (nat_lt g (min count 32) && not (has self.0 g)) }
    {
        let below = if count < 32 {
            (1 << count) - 1
        } else {
            u32::MAX
        };
        GuardSet(!self.0 & below)
    }
}
