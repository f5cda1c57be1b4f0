// The tokens of a text: words, line ends and block ends, each with the number of its line.
ghost use Rattle.std.specs.Prelude.{◌≡◌, ◌<◌, ◌≤◌, List, ◌++◌, map, length, take, IfOk, MatchOption, slice_index, All};
ghost use Rattle.text.specs.Tokens.{Visible, NoWords, Bad, LineAdded, Scanned, sign_of, line_of};

use std::alloc::{AllocError, Global};

// A token borrows the text that it stands in.
#[derive(Clone, Copy, Debug, PartialEq, Eq)]
pub enum Token<'a> {
    Word(&'a [u8], u32),
    LineEnd(u32),
    BlockEnd(u32),
}

// The tokens of all lines before the first bad one, and the number of that line.
#[derive(Drop)]
pub struct ScannedText<'a> {
    pub tokens: Vec<Token<'a>>,
    pub bad: Option<u32>,
}

impl Token<'_> {
    // The number of the token's line.
    pub fn line(self) -> u32
        ensures { result ≡ line_of (sign_of self.entry) }
    {
        match self {
            Token::Word(_, line) | Token::LineEnd(line) | Token::BlockEnd(line) => line,
        }
    }
}

// How many bytes at the front belong to a word.
fn word_len(text: &[u8]) -> usize
    ensures within { result ≤ length text.now }
    ensures visible { All Visible (take result text.now) }
    ensures stops { result < length text.now → Visible (slice_index text.now result) → ⊥ }
{
    text.iter()
        .position(|c| !c.is_ascii_graphic())
        .unwrap_or(text.len())
}

// Adds the tokens of a first line of words and gives the text behind it, or gives none and may have added some words.
fn push_words<'a>(
    tokens: &mut Vec<Token<'a>>,
    text: &'a [u8],
    line: u32,
) -> Result<Option<&'a [u8]>, AllocError>
    ensures { IfOk result (λ o. MatchOption o (NoWords text.now × ((more : List Token) × (tokens.new.items ≡ tokens.old.items ++ more))) (λ after. LineAdded line text.now tokens.old.items tokens.new.items after.now)) }
{
    let mut rest = text;
    loop {
        let (word, after) = rest.split_at(word_len(rest));
        if word.is_empty() {
            return Ok(None);
        }
        tokens.push(Token::Word(word, line))?;
        match after {
            [b' ', more @ ..] => rest = more,
            [b'\n', more @ ..] => {
                tokens.push(Token::LineEnd(line))?;
                return Ok(Some(more));
            }
            _ => return Ok(None),
        }
    }
}

// Adds the tokens of the first line and gives the text behind it, or adds none where the line is bad.
fn push_line<'a>(
    tokens: &mut Vec<Token<'a>>,
    text: &'a [u8],
    line: u32,
) -> Result<Option<&'a [u8]>, AllocError>
    requires { 0 < length text.now }
    ensures { IfOk result (λ o. MatchOption o (Bad text.now × (tokens.new.items ≡ tokens.old.items)) (λ after. LineAdded line text.now tokens.old.items tokens.new.items after.now)) }
{
    if let [b'\n', after @ ..] = text {
        tokens.push(Token::BlockEnd(line))?;
        return Ok(Some(after));
    }
    let before = tokens.len();
    let after = push_words(tokens, text, line)?;
    if after.is_none() {
        tokens.truncate(before);
    }
    Ok(after)
}

// The tokens of a text, line by line up to the first bad line.
pub fn scan<'a>(heap: Global, text: &'a [u8]) -> Result<ScannedText<'a>, AllocError>
    requires { length text.now ≤ 32768 }
    ensures { IfOk result (λ s. Scanned 1 text.now (map sign_of s.tokens.items) s.bad) }
{
    let mut tokens = Vec::new(heap);
    let mut rest = text;
    let mut line = 1;
    while !rest.is_empty() {
        let Some(after) = push_line(&mut tokens, rest, line)? else {
            return Ok(ScannedText {
                tokens,
                bad: Some(line),
            });
        };
        rest = after;
        line += 1;
    }
    Ok(ScannedText { tokens, bad: None })
}

#[cfg(test)]
mod tests {
    use super::*;
    use std::test::Fail;

    #[test]
    fn cuts_a_text(rt: HostRuntime) -> Result<(), Fail> {
        let scanned = scan(rt.alloc(), b"ab ~\n\n!\n")?;
        assert_eq!(rt; scanned.bad, None);
        assert_eq!(rt;
            scanned.tokens.as_slice(),
            [
                Token::Word(b"ab", 1),
                Token::Word(b"~", 1),
                Token::LineEnd(1),
                Token::BlockEnd(2),
                Token::Word(b"!", 3),
                Token::LineEnd(3)
            ]
            .as_slice()
        );
        assert_eq!(rt; Token::Word(b"ab", 7).line(), 7);
        Ok(())
    }

    #[test]
    fn stops_at_a_bad_line(rt: HostRuntime) -> Result<(), Fail> {
        assert_eq!(rt; scan(rt.alloc(), b"")?.bad, None);
        assert_eq!(rt; scan(rt.alloc(), b"a\nb\tc\n")?.bad, Some(2), "a bad byte");
        assert_eq!(rt; scan(rt.alloc(), b" a\n")?.bad, Some(1), "a leading space");
        assert_eq!(rt;
            scan(rt.alloc(), b"\na \n")?.bad,
            Some(2),
            "a trailing space"
        );
        assert_eq!(rt; scan(rt.alloc(), b"a  b\n")?.bad, Some(1), "two spaces");
        assert_eq!(rt; scan(rt.alloc(), b"a\nb")?.bad, Some(2), "no line feed");
        let scanned = scan(rt.alloc(), b"\na b\x7f\n")?;
        assert_eq!(rt; scanned.bad, Some(2));
        assert_eq!(rt; scanned.tokens.as_slice(), [Token::BlockEnd(1)].as_slice());
        Ok(())
    }
}
