// What a numbering holds.
ghost use Rattle.std.specs.Prelude.{◌≡◌, Bool, Decides};

pub trait Entry: Copy {
    ghost equal: { Self → Self → Bool };

    // Not by `==`, which may look at less than the whole value.
    fn same(&self, other: &Self) -> bool
        ensures { Decides result (self.now ≡ other.now) };

    // Where to look for the entry first. Nothing rests on it but speed: different entries should mostly differ in it.
    fn hint(&self) -> usize;

    // the equality is that of the values
    ghost exact: { (x y : Self) → Decides (equal x y) (x ≡ y) };
}
