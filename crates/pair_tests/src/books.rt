// Small books of the narrow kinds with two guards each, and pairs of them.
ghost use Rattle.std.specs.Prelude.{◌≡◌, ℕ, ◌&&◌, ◌||◌, ◌==◌, IfOk, codes, nat_le, nat_lt};
ghost use Rattle.labels.specs.Patterns.{matches};
ghost use Rattle.labels.specs.Ranges.{code_label};
ghost use Rattle.pair_tests.specs.Crossed.{HoldsWhere};

use labels::code_points::CodePoints;
use labels::events::EventWords;
use labels::kind::{AddFault, LabelKind, NarrowKind};
use labels::range::Range;
use labels::tags::{Tag, Tags};
use pairs::pair::Pair;
use pairs::value::PairValue;
use std::alloc::Global;
use std::test::Fail;

// For each kind the labels at which a set of its guards has its least.
pub(crate) const POINTS: [u32; 4] = [0, 0x41, 0x50, 0x5B];

pub(crate) const TAGS: [u32; 3] = [0, 3, 5];

pub(crate) const WORDS: [u32; 4] = [0, 1, 32768, 32769];

pub(crate) fn range(low: u32, high: u32) -> Range
    ensures { result ≡ record { low = low; high = high } }
{
    Range { low, high }
}

pub(crate) fn value(first: u32, second: u32) -> PairValue
    ensures { result ≡ record { first = first; second = second } }
{
    PairValue { first, second }
}

// Guard 0 has 41 to 5A hex, guard 1 has 50 to 60.
pub(crate) fn points(heap: Global) -> Result<CodePoints, Fail>
    ensures guards { IfOk result (λ k. (⟦<CodePoints as LabelKind>⟧.book k).meaning.guards ≡ 2) }
    ensures first { IfOk result (λ k. (x : ℕ) → (⟦<CodePoints as LabelKind>⟧.book k).meaning.holds 0 x ≡ (code_label x && (nat_le 0x41 x && nat_le x 0x5A))) }
    ensures second { IfOk result (λ k. (x : ℕ) → (⟦<CodePoints as LabelKind>⟧.book k).meaning.holds 1 x ≡ (code_label x && (nat_le 0x50 x && nat_le x 0x60))) }
{
    let mut points = CodePoints::new(heap)?;
    points.add(0, &range(0x41, 0x5A))?;
    points.add(1, &range(0x50, 0x60))?;
    Ok(points)
}

// Guard 0 has the tags 3 and 5, guard 1 the tag 3.
pub(crate) fn tags() -> Result<Tags, AddFault>
    ensures guards { IfOk result (λ k. (⟦<Tags as LabelKind>⟧.book k).meaning.guards ≡ 2) }
    ensures first { IfOk result (λ k. (x : ℕ) → (⟦<Tags as LabelKind>⟧.book k).meaning.holds 0 x ≡ (x == 3 || x == 5)) }
    ensures second { IfOk result (λ k. (x : ℕ) → (⟦<Tags as LabelKind>⟧.book k).meaning.holds 1 x ≡ (x == 3)) }
{
    let mut tags = Tags::new();
    tags.add(0, &Tag(3))?;
    tags.add(0, &Tag(5))?;
    tags.add(1, &Tag(3))?;
    Ok(tags)
}

// Guard 0 has the words with the highest bit, guard 1 those with the lowest.
pub(crate) fn words(heap: Global) -> Result<EventWords, Fail>
    ensures guards { IfOk result (λ k. (⟦<EventWords as LabelKind>⟧.book k).meaning.guards ≡ 2) }
    ensures first { IfOk result (λ k. (x : ℕ) → (⟦<EventWords as LabelKind>⟧.book k).meaning.holds 0 x ≡ (nat_lt x 65536 && matches (codes "1---------------") x)) }
    ensures second { IfOk result (λ k. (x : ℕ) → (⟦<EventWords as LabelKind>⟧.book k).meaning.holds 1 x ≡ (nat_lt x 65536 && matches (codes "---------------1") x)) }
{
    let mut words = EventWords::new(heap)?;
    words.add(0, &String::from_str(heap, "1---------------")?)?;
    words.add(1, &String::from_str(heap, "---------------1")?)?;
    Ok(words)
}

// Guard 0 has guard 0 of the first and 1 of the second, guard 1 has 1 and 0, guard 2 has 0 of both.
pub(crate) fn crossed<A: NarrowKind + Drop, B: NarrowKind + Drop>(
    first: A,
    second: B,
) -> Result<Pair<A, B>, AddFault>
    ensures guards { IfOk result (λ k. (⟦<Pair<A, B> as LabelKind>⟧.book k).meaning.guards ≡ 3) }
    ensures zero { IfOk result (λ k. HoldsWhere (⟦<Pair<A, B> as LabelKind>⟧.book k).meaning (A.LabelKind.book first).meaning (B.LabelKind.book second).meaning 0 0 1) }
    ensures one { IfOk result (λ k. HoldsWhere (⟦<Pair<A, B> as LabelKind>⟧.book k).meaning (A.LabelKind.book first).meaning (B.LabelKind.book second).meaning 1 1 0) }
    ensures two { IfOk result (λ k. HoldsWhere (⟦<Pair<A, B> as LabelKind>⟧.book k).meaning (A.LabelKind.book first).meaning (B.LabelKind.book second).meaning 2 0 0) }
{
    let mut pair = Pair::new(first, second);
    pair.add(0, &value(0, 1))?;
    pair.add(1, &value(1, 0))?;
    pair.add(2, &value(0, 0))?;
    Ok(pair)
}
