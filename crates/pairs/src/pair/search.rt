// The search for the least label of a pair. It takes each first of a guard that is not to hold in, and then out, of the guards
// that hold of the first part: at the end of a branch it is known which seconds must not hold.
ghost use Rattle.std.specs.Prelude.{◌≡◌, min, Some, None, MatchOption};
ghost use Rattle.labels.specs.Meaning.{IsLeast};
ghost use Rattle.pairs.specs.Pairs.{pair_meaning};
ghost use Rattle.pairs.specs.Search.{Branch, Narrow, Next, Searched};

use crate::pair::{Pair, SPAN};
use labels::kind::{LabelKind, NarrowKind};
use labels::set::GuardSet;

// How far the search has come: which guards are to hold and which are not, the firsts of the latter, from which number on
// these are still to be asked, and which guards of the first part the branch takes in, and which out.
#[derive(Clone, Copy)]
pub struct Path {
    pub yes: GuardSet,
    pub no: GuardSet,
    pub asked: GuardSet,
    pub next: u32,
    pub ins: GuardSet,
    pub outs: GuardSet,
}

impl Path {
    // The first to be asked next.
    fn to_ask(self) -> Option<u32>
        ensures { Next self.asked.0 self.next result }
    {
        (self.next..32).find(|k| self.asked.contains(*k))
    }
}

impl<A: NarrowKind, B: NarrowKind> Pair<A, B> {
    // The least of `best` and of the labels that fit and have a first part with the guards that the path takes in, and
    // without those that it takes out.
    pub(super) fn search(&self, path: Path, best: Option<u64>) -> Option<u64>
        requires { Branch self.now.values.list path }
        ensures { Searched (pair_meaning (A.LabelKind.book self.now.first).meaning (B.LabelKind.book self.now.second).meaning self.now.values.list self.now.values.guards) (A.LabelKind.book self.now.first).meaning path best result }
    {
        let Some(x) = self.first.least(path.ins, path.outs) else {
            return best;
        };
        let Some(k) = path.to_ask() else {
            return self.end(path, x, best);
        };
        let within = Path {
            next: k + 1,
            ins: path.ins.with(k),
            ..path
        };
        let without = Path {
            next: k + 1,
            outs: path.outs.with(k),
            ..path
        };
        let found = self.search(within, best);
        self.search(without, found)
    }

    // The same where all firsts have been asked, and x is the least label of the first part.
    fn end(&self, path: Path, x: u64, best: Option<u64>) -> Option<u64>
        requires branch { Branch self.now.values.list path }
        requires asked { Next path.asked.0 path.next None }
        requires least { IsLeast (A.LabelKind.book self.now.first).meaning path.ins.0 path.outs.0 (Some x) }
        ensures { Searched (pair_meaning (A.LabelKind.book self.now.first).meaning (B.LabelKind.book self.now.second).meaning self.now.values.list self.now.values.guards) (A.LabelKind.book self.now.first).meaning path best result }
    {
        self.narrow();
        let wanted = self.values.seconds(path.yes, path.ins);
        let barred = self.values.seconds(path.no, path.ins);
        let Some(y) = self.second.least(wanted, barred) else {
            return best;
        };
        Some(lesser(best, x * SPAN + y))
    }

    // Shows that the labels of both parts lie below 2^32; does nothing.
    pub(super) fn narrow(&self)
        ensures first { Narrow (A.LabelKind.book self.now.first).meaning }
        ensures second { Narrow (B.LabelKind.book self.now.second).meaning }
    {
        let _ = self.first.largest();
        let _ = self.second.largest();
    }
}

// The label, or the best so far if that is lesser.
fn lesser(best: Option<u64>, label: u64) -> u64
    ensures { MatchOption best (result ≡ label) (λ known. result ≡ min known label) }
{
    best.map_or(label, |known| known.min(label))
}
