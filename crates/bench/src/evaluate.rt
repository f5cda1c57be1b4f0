// The state of a tree of labels.
ghost use Rattle.bench.specs.Nodes.{Counted, AllShaped};
ghost use Rattle.bench.specs.Shelves.{automaton};
ghost use Rattle.bench.specs.Testing.{Roots};

use crate::lookup::atom_of;
use crate::node::{NODES, Node};
use crate::refusal::Refusal;
use crate::shelf::Shelf;
use arrayvec::ArrayVec;
use labels::kind::LabelKind;

impl Shelf<'_> {
    // The state of the last node, or the refusal of the first node whose label has no atom in the table.
    pub fn root_state<K: LabelKind>(&self, kind: &K, nodes: &[Node]) -> Result<u8, Refusal>
        requires counted { Counted nodes.now }
        requires shaped { AllShaped nodes.now }
        ensures { Roots (K.LabelKind.book kind.now).meaning self.now.table.now.atoms self.now.table.now.count (automaton self.now.bytes.now) nodes.now result }
    {
        // On the stack: a bench takes no memory but what it is lent.
        let mut states = ArrayVec::<u8, NODES>::new();
        for (i, node) in nodes.iter().enumerate() {
            let atom = atom_of(kind, self.table, node.label).ok_or(Refusal::UnknownLabel(i))?;
            states.push(self.next(node.over(&states), atom));
        }
        Ok(*states.last().unwrap())
    }
}
