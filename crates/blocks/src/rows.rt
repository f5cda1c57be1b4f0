// The value lines of a guard block.
ghost use Rattle.std.specs.Prelude.{◌≡◌, ℕ, ◌<◌, Bool, List, map, length, MatchOption, MatchResult};
ghost use Rattle.labels.specs.Adding.{Added};
ghost use Rattle.text.specs.Tokens.{Sign, sign_of};
ghost use Rattle.blocks.specs.Answers.{Named};
ghost use Rattle.blocks.specs.Rows.{Format, Writes, Unread, Stops, CanAdd, CannotAdd};

use crate::refusal::{Refusal, Stop};
use labels::kind::{AddFault, LabelKind};
use std::alloc::Global;
use text::token::Token;

// What a line says: a guard, a value for it, the line's number, and the tokens behind the line.
#[derive(Drop)]
pub struct ValueRow<'t, 'a, V> {
    pub guard: u32,
    pub value: V,
    pub line: u32,
    pub rest: &'t [Token<'a>],
}

// A kind whose values can be read from lines.
pub trait Readable: LabelKind {
    ghost format: { Format };

    // whether a value is of the kind's form, and its labels
    ghost formed: { Self.Value → Bool };

    ghost labels: { Self.Value → ℕ → Bool };

    // The tokens behind the kind's names line, if they begin with it.
    fn behind_names<'t, 'a>(tokens: &'t [Token<'a>]) -> Option<&'t [Token<'a>]>
        ensures { MatchOption result ((ss : List Sign) → Named format (map sign_of tokens.now) ss → ⊥) (λ rest. Named format (map sign_of tokens.now) (map sign_of rest.now)) };

    // Reads the first line.
    fn read_row<'t, 'a>(
        heap: Global,
        tokens: &'t [Token<'a>],
    ) -> Result<ValueRow<'t, 'a, Self::Value>, Stop>
        requires { 0 < length tokens.now }
        ensures { MatchResult result (λ p. Writes format (map sign_of tokens.now) p.line p.guard (formed p.value) (labels p.value) (map sign_of p.rest.now)) (Stops (Unread format (map sign_of tokens.now))) };

    // The kind takes values by their form and their labels.
    ghost plain: { (k : Self) → ((Self.LabelKind.book k).formed ≡ formed) × ((Self.LabelKind.book k).labels ≡ labels) };
}

// Adds a value that stands in this line.
pub fn add_at<K: LabelKind>(
    kind: &mut K,
    guard: u32,
    value: &K::Value,
    line: u32,
) -> Result<(), Stop>
    ensures { MatchResult result (λ _. CanAdd (K.LabelKind.book kind.old) guard value.now × Added (K.LabelKind.book kind.old) guard value.now (K.LabelKind.book kind.new)) (Stops (CannotAdd (K.LabelKind.book kind.old) guard value.now line)) }
{
    // Case by case: a fault of adding knows no line.
    kind.add(guard, value).map_err(|fault| match fault {
        AddFault::Guard => Refusal::Guard(line),
        AddFault::Value => Refusal::Value(line),
        AddFault::Full => Refusal::Full(line),
    })?;
    Ok(())
}
