// Reads the value lines of a guard block into a kind.
ghost use Rattle.std.specs.Prelude.{ℕ, ◌+◌, ◌<◌, ◌≤◌, [], map, length, drop, Option, MatchResult};
ghost use Rattle.text.specs.Tokens.{sign_of};
ghost use Rattle.blocks.specs.Reading.{Outcome, Outcome.refused, Reads};
ghost use Rattle.blocks.specs.Rows.{Held, Takes, Refuses, Stops};

use crate::refusal::Stop;
use crate::rows::{Readable, add_at};
use std::alloc::Global;
use text::token::Token;

// Adds the value of the line that begins at `at`, and gives the place behind that line.
fn take_row<K: Readable>(
    heap: Global,
    kind: &mut K,
    tokens: &[Token<'_>],
    at: usize,
) -> Result<usize, Stop>
where
    K::Value: Drop,
    requires { at < length tokens.now }
    ensures { (c : ℕ) → Held K.Readable.format (K.LabelKind.book kind.old) c → MatchResult result (λ next. (next ≤ length tokens.now) × (at < next) × (Takes K.Readable.format (K.LabelKind.book kind.old).meaning c (map sign_of (drop at tokens.now)) (K.LabelKind.book kind.new).meaning (map sign_of (drop next tokens.now)) × Held K.Readable.format (K.LabelKind.book kind.new) (c + 1))) (Stops (Refuses K.Readable.format c (map sign_of (drop at tokens.now)))) }
{
    let row = K::read_row(heap, &tokens[at..])?;
    add_at(kind, row.guard, &row.value, row.line)?;
    Ok(tokens.len() - row.rest.len())
}

// Adds the values of all lines.
pub fn take_rows<K: Readable>(heap: Global, kind: &mut K, tokens: &[Token<'_>]) -> Result<(), Stop>
where
    K::Value: Drop,
    requires { Held K.Readable.format (K.LabelKind.book kind.old) 0 }
    ensures { MatchResult result (λ _. (c : ℕ) × ((b : Option ℕ) (o : Outcome) → Reads K.Readable.format (K.LabelKind.book kind.new).meaning c [] b o → Reads K.Readable.format (K.LabelKind.book kind.old).meaning 0 (map sign_of tokens.now) b o)) (Stops (λ x. (b : Option ℕ) → Reads K.Readable.format (K.LabelKind.book kind.old).meaning 0 (map sign_of tokens.now) b (refused x))) }
{
    // By a place: the borrow checker covers no loop that carries the rest of a slice of tokens.
    let mut at = 0;
    while at < tokens.len() {
        at = take_row(heap, kind, tokens, at)?;
    }
    Ok(())
}
