// A tree as a list of nodes, the root last.
ghost use Rattle.std.specs.Prelude.{◌≡◌, ℕ, length, Decides, MatchResult, slice_index};
ghost use Rattle.bench.specs.declared.refusal.Refusal.TheVariants.{NodeCount, NodeOutOfShape};
ghost use Rattle.trees.specs.Rounds.{Below};
ghost use Rattle.bench.specs.Combining.{over};
ghost use Rattle.bench.specs.Nodes.{line, Counted, Shaped, AllShaped, ShapedTo, FirstNot};

use crate::children::Children;
use crate::refusal::Refusal;

// How many nodes a tree may have.
pub(crate) const NODES: usize = 1024;

#[derive(Clone, Copy, Debug, PartialEq, Eq)]
pub struct Node {
    pub label: u64,
    // how many children it has: 0, 1 or 2; a host may lend any number, and one above 2 is refused
    pub children: u8,
    // numbers of earlier nodes; that of an absent child is not read
    pub left: u16,
    pub right: u16,
}

impl Node {
    // Whether, as the node of this number, it has at most two children, all of them earlier.
    pub(crate) fn in_shape(self, number: usize) -> bool
        ensures { Decides result (Shaped number self) }
    {
        match self.children {
            0 => true,
            1 => usize::from(self.left) < number,
            2 => usize::from(self.left) < number && usize::from(self.right) < number,
            _ => false,
        }
    }

    // Its children, by the states of the nodes before it.
    pub(crate) fn over(self, states: &[u8]) -> Children
        requires { Below (length states.now) (line self) }
        ensures { result ≡ over (λ k. slice_index states.now k) (line self) }
    {
        let state = |number: u16| states[usize::from(number)];
        match self.children {
            0 => Children::No,
            1 => Children::One(state(self.left)),
            _ => Children::Two(state(self.left), state(self.right)),
        }
    }
}

// There are 1 to 1,024 nodes.
pub(crate) fn check_count(nodes: &[Node]) -> Result<(), Refusal>
    ensures { MatchResult result (λ _. Counted nodes.now) (λ e. (e ≡ NodeCount) × (Counted nodes.now → ⊥)) }
{
    (1..=NODES)
        .contains(&nodes.len())
        .then_some(())
        .ok_or(Refusal::NodeCount)
}

// Every node is in shape.
pub(crate) fn check_shape(nodes: &[Node]) -> Result<(), Refusal>
    ensures { MatchResult result (λ _. AllShaped nodes.now) (λ e. (i : ℕ) × (e ≡ NodeOutOfShape i) × FirstNot (ShapedTo nodes.now) (length nodes.now) i) }
{
    nodes
        .iter()
        .enumerate()
        .position(|(i, node)| !node.in_shape(i))
        .map_or(Ok(()), |i| Err(Refusal::NodeOutOfShape(i)))
}
