// Number words: decimal numbers of at most 5 digits, and hexadecimal ones of at most 6.
ghost use Rattle.std.specs.Prelude.{◌+◌, ◌*◌, ◌^◌, ◌≤◌, ◌∷◌, length, SomeIff, All};
ghost use Rattle.std.specs.Str.Parse.{digits_value, digits_value_after};
ghost use Rattle.std.specs.Char.{digit_value};
ghost use Rattle.text.specs.Numbers.{DigitOf, Numeral, HexNumeral};

// The value of a digit of the base, a letter in upper case.
fn digit(base: u32, c: u8) -> Option<u32>
    requires { (2 ≤ base) × (base ≤ 16) }
    ensures { SomeIff result (DigitOf base c) (digit_value c) }
{
    if c.is_ascii_lowercase() {
        return None;
    }
    char::from(c).to_digit(base)
}

// The number that the word's digits write after the digits of `before`.
// A loop of its own, since `from_str_radix` takes a sign and lower case.
fn digits_after(base: u32, before: u32, word: &[u8]) -> Option<u32>
    requires base { (2 ≤ base) × (base ≤ 16) }
    requires room { (before + 1) * base ^ length word.now ≤ 2 ^ 32 }
    ensures { SomeIff result (All (DigitOf base) word.now) (digits_value_after base before word.now) }
{
    let mut n = before;
    for c in word {
        let d = digit(base, *c)?;
        n = n * base + d;
    }
    Some(n)
}

// The number of a word that starts with the digit `first`, from 1 to 9.
#[tactic(auto, using(crate::proofs::Reading::longer_word))]
fn longer(first: u8, rest: &[u8]) -> Option<u32>
    requires { (49 ≤ first) × (first ≤ 57) }
    ensures { SomeIff result (Numeral (first ∷ rest.now)) (digits_value 10 (first ∷ rest.now)) }
{
    // by cases: `then` would need a `flatten` after it
    if rest.len() <= 4 {
        digits_after(10, u32::from(first - b'0'), rest)
    } else {
        None
    }
}

// The number of 1 to 5 decimal digits without a needless zero in front.
pub fn number(word: &[u8]) -> Option<u32>
    ensures { SomeIff result (Numeral word.now) (digits_value 10 word.now) }
{
    match word {
        [b'0'] => Some(0),
        [b'0', ..] => None,
        [first @ b'1'..=b'9', rest @ ..] => longer(*first, rest),
        _ => None,
    }
}

// The number of 1 to 6 hexadecimal digits in upper case.
pub fn hex_number(word: &[u8]) -> Option<u32>
    ensures { SomeIff result (HexNumeral word.now) (digits_value 16 word.now) }
{
    match word.len() {
        1..=6 => digits_after(16, 0, word),
        _ => None,
    }
}

#[cfg(test)]
mod tests {
    use super::*;

    #[test]
    fn reads_decimal_words(rt: HostRuntime) {
        assert_eq!(rt; number(b"0"), Some(0));
        assert_eq!(rt; number(b"7"), Some(7));
        assert_eq!(rt; number(b"99999"), Some(99999));
        assert_eq!(rt; number(b""), None);
        assert_eq!(rt; number(b"00"), None);
        assert_eq!(rt; number(b"01"), None);
        assert_eq!(rt; number(b"100000"), None);
        assert_eq!(rt; number(b"12x"), None);
    }

    #[test]
    fn reads_hexadecimal_words(rt: HostRuntime) {
        assert_eq!(rt; hex_number(b"0"), Some(0));
        assert_eq!(rt; hex_number(b"D800"), Some(0xD800));
        assert_eq!(rt; hex_number(b"10FFFF"), Some(0x10FFFF));
        assert_eq!(rt; hex_number(b""), None);
        assert_eq!(rt; hex_number(b"0000041"), None);
        assert_eq!(rt; hex_number(b"d800"), None);
    }
}
