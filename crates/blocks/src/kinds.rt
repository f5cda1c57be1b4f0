// How each kind's values are written in a line. Tags and patterns share lines of two words; the line of three is ranges' alone.
ghost use Rattle.std.specs.Prelude.{◌≡◌, ◌≢◌, refl, ℕ, ◌<◌, List, ◌∷◌, map, length, MatchOption, MatchResult, IfOk, string_bytes, ◌==◌, nat_lt};
ghost use Rattle.std.specs.Str.Parse.{digits_value};
ghost use Rattle.labels.specs.Patterns.{pattern_formed, matches};
ghost use Rattle.labels.specs.Ranges.{range_formed, in_range};
ghost use Rattle.text.specs.Numbers.{Numeral};
ghost use Rattle.text.specs.Tokens.{Sign, Sign.word, Sign.line_end, sign_of};
ghost use Rattle.blocks.specs.Rows.{Format.ranges, Format.tags, Format.patterns, Unread, SamePattern};

use crate::cuts::{WordLine, cut_three, cut_two, first_line};
use crate::refusal::{Refusal, Stop};
use crate::rows::{Readable, ValueRow};
use labels::code_points::CodePoints;
use labels::events::EventWords;
use labels::range::Range;
use labels::tags::{Tag, Tags};
use std::alloc::{AllocError, Global};
use text::number::{hex_number, number};
use text::token::Token;

// A guard and a tag.
impl Readable for Tags {
    ghost format = { tags };

    ghost formed = { λ v. nat_lt v.0 64 };

    ghost labels = { λ v x. (x == v.0) };

    fn behind_names<'t, 'a>(tokens: &'t [Token<'a>]) -> Option<&'t [Token<'a>]> {
        behind_two(tokens, (b"guard", b"tag"))
    }

    fn read_row<'t, 'a>(
        _heap: Global,
        tokens: &'t [Token<'a>],
    ) -> Result<ValueRow<'t, 'a, Tag>, Stop> {
        let (guard, row) = guarded_two(tokens)?;
        let tag = number(row.words.1).ok_or(Refusal::Word(row.line))?;
        Ok(ValueRow {
            guard,
            value: Tag(tag),
            line: row.line,
            rest: row.rest,
        })
    }

    ghost plain = { λ _. (refl, refl) };
}

// A guard and the two ends of a range.
impl Readable for CodePoints {
    ghost format = { ranges };

    ghost formed = { range_formed };

    ghost labels = { in_range };

    fn behind_names<'t, 'a>(tokens: &'t [Token<'a>]) -> Option<&'t [Token<'a>]> {
        let row = cut_three(tokens)?;
        let names: (&[u8], &[u8], &[u8]) = (b"guard", b"low", b"high");
        (row.words == names).then_some(row.rest)
    }

    fn read_row<'t, 'a>(
        _heap: Global,
        tokens: &'t [Token<'a>],
    ) -> Result<ValueRow<'t, 'a, Range>, Stop> {
        let row = cut_three(tokens).ok_or(Refusal::Line(first_line(tokens)))?;
        let guard = number(row.words.0).ok_or(Refusal::Word(row.line))?;
        let low = hex_number(row.words.1).ok_or(Refusal::Word(row.line))?;
        let high = hex_number(row.words.2).ok_or(Refusal::Word(row.line))?;
        Ok(ValueRow {
            guard,
            value: Range { low, high },
            line: row.line,
            rest: row.rest,
        })
    }

    ghost plain = { λ _. (refl, refl) };
}

// A guard and a pattern.
impl Readable for EventWords {
    ghost format = { patterns };

    ghost formed = { λ v. pattern_formed (string_bytes v) };

    ghost labels = { λ v. matches (string_bytes v) };

    fn behind_names<'t, 'a>(tokens: &'t [Token<'a>]) -> Option<&'t [Token<'a>]> {
        behind_two(tokens, (b"guard", b"pattern"))
    }

    fn read_row<'t, 'a>(
        heap: Global,
        tokens: &'t [Token<'a>],
    ) -> Result<ValueRow<'t, 'a, String>, Stop> {
        let (guard, row) = guarded_two(tokens)?;
        let value = pattern_text(heap, row.words.1)?;
        Ok(ValueRow {
            guard,
            value,
            line: row.line,
            rest: row.rest,
        })
    }

    ghost plain = { λ _. (refl, refl) };
}

// The tokens behind a line of these two words, if they begin with it.
fn behind_two<'t, 'a>(tokens: &'t [Token<'a>], names: (&[u8], &[u8])) -> Option<&'t [Token<'a>]>
    ensures { MatchOption result ((n i k : ℕ) (ss : List Sign) → map sign_of tokens.now ≢ word names.entry.0.now n ∷ word names.entry.1.now i ∷ line_end k ∷ ss) (λ rest. (n : ℕ) × (i : ℕ) × (k : ℕ) × (map sign_of tokens.now ≡ word names.entry.0.now n ∷ word names.entry.1.now i ∷ line_end k ∷ map sign_of rest.now)) }
{
    let row = cut_two(tokens)?;
    (row.words == names).then_some(row.rest)
}

// The first line of two words, and the guard that the first word names.
fn guarded_two<'t, 'a>(
    tokens: &'t [Token<'a>],
) -> Result<(u32, WordLine<'t, 'a, (&'a [u8], &'a [u8])>), Refusal>
    requires { 0 < length tokens.now }
    ensures { MatchResult result (λ p. (i : ℕ) × (k : ℕ) × (map sign_of tokens.now ≡ word p.1.words.0.now p.1.line ∷ word p.1.words.1.now i ∷ line_end k ∷ map sign_of p.1.rest.now) × Numeral p.1.words.0.now × (p.0 ≡ digits_value 10 p.1.words.0.now)) (λ x. Unread tags (map sign_of tokens.now) x × Unread patterns (map sign_of tokens.now) x) }
{
    let row = cut_two(tokens).ok_or(Refusal::Line(first_line(tokens)))?;
    let guard = number(row.words.0).ok_or(Refusal::Word(row.line))?;
    Ok((guard, row))
}

// The word as text; a word that is no text is no pattern, as the empty text is none.
fn pattern_text(heap: Global, word: &[u8]) -> Result<String, AllocError>
    ensures { IfOk result (λ t. SamePattern (string_bytes t) word.now) }
{
    String::from_str(heap, std::str::from_utf8(word).unwrap_or_default())
}
