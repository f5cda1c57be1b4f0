// The rounds in which things are found.
// Not a struct of `found` and `firsts`: what a struct in a struct was lent is not followed to the end of the loan.
ghost use Rattle.std.specs.Prelude.{◌≡◌, ℕ, ◌+◌, ◌<◌};
ghost use Rattle.explore.specs.Rounds.{Room};
ghost use Rattle.explore.specs.Search.{Explores, GoesOn, LeadsTo, Stands, Turn, count, left, right};

use crate::entry::Entry;
use crate::full::Full;
use crate::numbering::Numbering;
use crate::stepping::Stepping;
use crate::trying::{Children, try_one};

// Things below `old` were found before the last round, and those below `start` in it.
#[derive(Clone, Copy)]
pub(crate) struct Round {
    pub(crate) old: usize,
    pub(crate) start: usize,
}

// Round after round, until one finds nothing new.
pub(crate) fn all_rounds<E: Entry, S: Stepping<E>>(
    steps: &S,
    found: &mut Numbering<'_, '_, E>,
    firsts: &mut [u16],
) -> Result<(), Full>
    requires sound { S.Stepping.sound steps.now }
    requires room { Room found.old.entries.now firsts.old }
    requires empty { found.old.len ≡ 0 }
    ensures { Explores (S.Stepping.steps steps.now) found.old result found.new firsts.new }
{
    let mut round = Round { old: 0, start: 0 };
    labels(steps, found, firsts, round, Children::None, |a| {
        steps.none(a)
    })?;
    while found.len() > round.start {
        round = Round {
            old: round.start,
            start: found.len(),
        };
        singles(steps, found, firsts, round)?;
        doubles(steps, found, firsts, round)?;
    }
    Ok(())
}

// Nodes with these children, by their labels.
fn labels<E: Entry, S: Stepping<E>, F: Fn(usize) -> E>(
    steps: &S,
    found: &mut Numbering<'_, '_, E>,
    firsts: &mut [u16],
    round: Round,
    children: Children,
    thing: F,
) -> Result<(), Full>
    requires sound { S.Stepping.sound steps.now }
    requires may { (a : ℕ) → a < (S.Stepping.steps steps.now).atoms → F.pre thing a }
    requires leads { LeadsTo (S.Stepping.steps steps.now) found.old children (F.post thing) }
    requires turn { Turn round children }
    requires stands { Stands (S.Stepping.steps steps.now) found.old firsts.old round (count children) (left children) (right children) 0 }
    ensures { GoesOn (S.Stepping.steps steps.now) found.old round result found.new firsts.new (count children) (left children) (right children) (S.Stepping.steps steps.now).atoms }
{
    steps.fit();
    for a in 0..steps.atoms() {
        try_one(found, firsts, children, a, thing(a))?;
    }
    Ok(())
}

// Nodes with one child that was found in the last round. By number, here and below: `found` grows while the loop runs, so that its
// entries cannot be lent to it. Beside `doubles`, which works out a row for each left child.
fn singles<E: Entry, S: Stepping<E>>(
    steps: &S,
    found: &mut Numbering<'_, '_, E>,
    firsts: &mut [u16],
    round: Round,
) -> Result<(), Full>
    requires sound { S.Stepping.sound steps.now }
    requires stands { Stands (S.Stepping.steps steps.now) found.old firsts.old round 1 round.old 0 0 }
    ensures { GoesOn (S.Stepping.steps steps.now) found.old round result found.new firsts.new 2 0 0 0 }
{
    steps.fit();
    for p in round.old..round.start {
        let child = found.get(p);
        labels(steps, found, firsts, round, Children::One(p), |a| {
            steps.single(&child, a)
        })?;
    }
    Ok(())
}

// Nodes with two children, one of which at least was found in the last round.
fn doubles<E: Entry, S: Stepping<E>>(
    steps: &S,
    found: &mut Numbering<'_, '_, E>,
    firsts: &mut [u16],
    round: Round,
) -> Result<(), Full>
    requires sound { S.Stepping.sound steps.now }
    requires stands { Stands (S.Stepping.steps steps.now) found.old firsts.old round 2 0 0 0 }
    ensures { GoesOn (S.Stepping.steps steps.now) found.old round result found.new firsts.new 3 0 0 0 }
{
    for p in 0..round.start {
        doubles_from(steps, found, firsts, round, p)?;
    }
    Ok(())
}

// Nodes with two children, of which the left one is the thing with number p.
fn doubles_from<E: Entry, S: Stepping<E>>(
    steps: &S,
    found: &mut Numbering<'_, '_, E>,
    firsts: &mut [u16],
    round: Round,
    p: usize,
) -> Result<(), Full>
    requires sound { S.Stepping.sound steps.now }
    requires turn { p < round.start }
    requires stands { Stands (S.Stepping.steps steps.now) found.old firsts.old round 2 p 0 0 }
    ensures { GoesOn (S.Stepping.steps steps.now) found.old round result found.new firsts.new 2 (p + 1) 0 0 }
{
    steps.fit();
    let left = found.get(p);
    let row = steps.row(&left);
    let from = if p < round.old { round.old } else { 0 };
    for q in from..round.start {
        let right = found.get(q);
        labels(steps, found, firsts, round, Children::Two(p, q), |a| {
            steps.double(&left, &row, &right, a)
        })?;
    }
    Ok(())
}
