// Ranges of code points.
ghost use Rattle.std.specs.Prelude.{◌≡◌};
ghost use Rattle.labels.specs.Ranges.{surrogate, in_range, past_surrogates};

#[derive(Clone, Copy, Debug, PartialEq, Eq)]
pub struct Range {
    pub low: u32,
    pub high: u32,
}

impl Range {
    pub fn has(self, x: u32) -> bool
        ensures { result ≡ in_range self x }
    {
        (self.low..=self.high).contains(&x)
    }
}

// A range and the guard it is given to.
#[derive(Clone, Copy, Debug, PartialEq, Eq)]
pub struct Given {
    pub guard: u32,
    pub range: Range,
}

pub(crate) fn is_surrogate(x: u32) -> bool
    ensures { result ≡ surrogate x }
{
    matches!(x, 0xD800..=0xDFFF)
}

// The first number from x on that is no surrogate.
pub(crate) fn skip_surrogates(x: u32) -> u32
    ensures { result ≡ past_surrogates x }
{
    if is_surrogate(x) { 0xE000 } else { x }
}
