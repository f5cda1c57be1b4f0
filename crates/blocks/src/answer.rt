// The answer to a text.
ghost use Rattle.std.specs.Prelude.{map, IfOk, string_bytes, MatchResult};
ghost use Rattle.text.specs.Tokens.{sign_of};
ghost use Rattle.blocks.specs.Answers.{Answers, Says, Spoken, Refusing, Tabulates, Gives};
ghost use Rattle.blocks.specs.Reading.{Reads};
ghost use Rattle.blocks.specs.Rows.{Held, Stops};

use crate::guards::take_rows;
use crate::print::print_table;
use crate::refusal::{Refusal, Stop};
use crate::rows::Readable;
use atoms::find::atoms;
use atoms::table::AtomTable;
use labels::code_points::CodePoints;
use labels::events::EventWords;
use labels::tags::Tags;
use std::alloc::{AllocError, Global};
use text::token::{ScannedText, Token, scan};

// Reads the value lines into the kind and prints the table of its atoms; `bad` is the number of the bad line behind the tokens.
fn table_of<K: Readable + Drop>(
    heap: Global,
    mut kind: K,
    tokens: &[Token<'_>],
    bad: Option<u32>,
) -> Result<String, Stop>
where
    K::Value: Drop,
    requires { Held K.Readable.format (K.LabelKind.book kind) 0 }
    ensures { Gives result (Reads K.Readable.format (K.LabelKind.book kind).meaning 0 (map sign_of tokens.now) bad) }
{
    take_rows(heap, &mut kind, tokens)?;
    if let Some(line) = bad {
        return Err(Refusal::Line(line).into());
    }
    let mut table = AtomTable::fresh();
    atoms(&kind, &mut table)?;
    Ok(print_table(heap, &table)?)
}

// What a scanned text says, from its names line on.
fn say(heap: Global, text: &ScannedText<'_>) -> Result<String, Stop>
    ensures { Gives result (Says (map sign_of text.now.tokens.items) text.now.bad) }
{
    let tokens = text.tokens.as_slice();
    // One step for each kind: each is another type, and some need memory to be made.
    if let Some(rows) = CodePoints::behind_names(tokens) {
        return table_of(heap, CodePoints::new(heap)?, rows, text.bad);
    }
    if let Some(rows) = Tags::behind_names(tokens) {
        return table_of(heap, Tags::new(), rows, text.bad);
    }
    if let Some(rows) = EventWords::behind_names(tokens) {
        return table_of(heap, EventWords::new(heap)?, rows, text.bad);
    }
    Err(Refusal::Line(1).into())
}

// The most bytes that a text may have.
const LIMIT: usize = 32768;

// What the text says, or why it is refused.
fn report(heap: Global, text: &[u8]) -> Result<String, Stop>
    ensures { MatchResult result (λ s. Spoken text.now (λ o. Tabulates o (string_bytes s))) (Stops (λ x. Refusing text.now x)) }
{
    if text.len() > LIMIT {
        return Err(Refusal::TooLong.into());
    }
    say(heap, &scan(heap, text)?)
}

// What is printed for a text: the table of the atoms of its guard book, or a refusal.
pub fn answer(heap: Global, text: &[u8]) -> Result<String, AllocError>
    ensures { IfOk result (λ s. Answers text.now (string_bytes s)) }
{
    report(heap, text).or_else(|stop| match stop {
        Stop::Refused(refusal) => format!(in heap; "{refusal}"),
        Stop::Memory(error) => Err(error),
    })
}
