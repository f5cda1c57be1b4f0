// Whether a shelf's schema has a tree.
ghost use Rattle.bench.specs.Testing.{Tests};

use crate::bench::Bench;
use crate::node::{Node, check_count, check_shape};
use crate::refusal::Refusal;
use labels::kind::LabelKind;

impl Bench<'_> {
    // Whether the shelf accepts the tree of the nodes, each label read as its atom by the kind. A node that is used twice
    // stands for two copies; the nodes that are not used are checked too.
    pub fn test<K: LabelKind>(
        &self,
        kind: &K,
        shelf: usize,
        nodes: &[Node],
    ) -> Result<bool, Refusal>
        ensures { Tests (K.LabelKind.book kind.now).meaning self.now.table.atoms self.now.table.count self.now.bytes.now shelf nodes.now result }
    {
        let shelf = self.read(shelf).ok_or(Refusal::NoSuchShelf)?;
        check_count(nodes)?;
        check_shape(nodes)?;
        let state = shelf.root_state(kind, nodes)?;
        Ok(shelf.accepts(state))
    }
}
