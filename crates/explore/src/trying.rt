// One combination tried.
ghost use Rattle.std.specs.Prelude.{◌+◌, ◌*◌, ◌<◌, ◌≤◌, length};
ghost use Rattle.trees.specs.Rounds.{Below};
ghost use Rattle.explore.specs.Rounds.{Remembers, Room};
ghost use Rattle.explore.specs.Search.{Tries, over};

use crate::entry::Entry;
use crate::full::Full;
use crate::numbering::Numbering;

// Combinations are kept in lent cells of 16 bits, three for each number. This one stands for an absent child.
const ABSENT: u16 = 0xFFFF;

// The children of a node, by the numbers of their things.
#[derive(Clone, Copy)]
pub(crate) enum Children {
    None,
    One(usize),
    Two(usize, usize),
}

// Gives the thing that the combination leads to its number, and remembers the combination if the thing is new.
pub(crate) fn try_one<E: Entry>(
    found: &mut Numbering<'_, '_, E>,
    firsts: &mut [u16],
    children: Children,
    label: usize,
    e: E,
) -> Result<(), Full>
    requires room { Room found.old.entries.now firsts.old }
    requires below { Below found.old.len (over children label) }
    requires small { label < 65536 }
    ensures { Tries found.old firsts.old (over children label) e result found.new firsts.new }
{
    let n = found.len();
    if found.number(e).ok_or(Full)? == n {
        remember(firsts, n, children, label);
    }
    Ok(())
}

// Keeps the combination for number k.
fn remember(firsts: &mut [u16], k: usize, children: Children, label: usize)
    requires room { 3 * k + 3 ≤ length firsts.old }
    requires few { k < 65536 }
    requires below { Below k (over children label) }
    requires small { label < 65536 }
    ensures { Remembers firsts.old k (over children label) firsts.new }
{
    let (left, right) = match children {
        Children::None => (ABSENT, ABSENT),
        Children::One(p) => (p as u16, ABSENT),
        Children::Two(p, q) => (p as u16, q as u16),
    };
    firsts[3 * k..3 * k + 3].copy_from_slice(&[left, right, label as u16]);
}
