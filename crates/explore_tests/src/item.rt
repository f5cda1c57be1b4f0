// A key with a note.
ghost use Rattle.std.specs.Prelude.{◌&&◌, ◌==◌};
ghost use Rattle.std.proofs.Common.{rules};

use explore::entry::Entry;

// `==` looks at the key alone; as things, items are the same with the same key and note.
#[derive(Clone, Copy)]
#[derive_where(PartialEq, Eq)]
pub struct Item {
    pub key: u32,
    #[derive_where(skip)]
    pub note: u32,
}

impl Entry for Item {
    ghost equal = { λ x y. (x.key == y.key && x.note == y.note) };

    fn same(&self, other: &Item) -> bool {
        self.key == other.key && self.note == other.note
    }

    fn hint(&self) -> usize {
        self.key as usize
    }

    ghost exact = { Prim.search rules };
}
