// Patterns of event words.
ghost use Rattle.std.specs.Prelude.{◌≡◌, true, false, MatchOption};
ghost use Rattle.labels.specs.Masks.{Bit, Spells, admits};
ghost use Rattle.labels.specs.Patterns.{pattern_formed};

// A word fits where its bits under the care mask are those of the value.
#[derive(Clone, Copy, Debug, PartialEq, Eq)]
pub struct Pattern {
    care: u32,
    value: u32,
}

impl Pattern {
    // Reads 16 characters, highest bit first.
    pub fn read(text: &[u8]) -> Option<Pattern>
        ensures { MatchOption result (pattern_formed text.now ≡ false) (λ p. (pattern_formed text.now ≡ true) × Spells text.now p) }
    {
        if text.len() != 16 {
            return None;
        }
        let mut care = 0;
        let mut value = 0;
        for b in text {
            let (asks, one) = bit(char::from(*b))?;
            care = care * 2 + asks;
            value = value * 2 + one;
        }
        Some(Pattern { care, value })
    }

    pub fn has(self, word: u32) -> bool
        ensures { result ≡ admits self word }
    {
        word & self.care == self.value
    }
}

// Whether the character asks for its bit, and for which. Digits, not a bool or an enum: the masks get them as they are, so that another
// form would be turned back into them.
fn bit(c: char) -> Option<(u32, u32)>
    ensures { Bit c result }
{
    match c {
        '0' => Some((1, 0)),
        '1' => Some((1, 1)),
        '-' => Some((0, 0)),
        _ => None,
    }
}
