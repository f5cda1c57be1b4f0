// Items found.

use crate::item::Item;
use crate::notes::{Notes, items_of};

// Items that `==` takes for one another are different things.
#[test]
fn items_with_one_key(rt: HostRuntime) {
    let steps = Notes { next: &[1, 2, 2] };
    let mut entries = [Item { key: 0, note: 0 }; 4];
    let (mut hints, mut firsts) = ([0; 16], [9; 12]);
    let found = items_of(&steps, &mut entries, &mut hints, &mut firsts);
    assert_eq!(rt; found, Ok(3));
    assert_eq!(rt; entries.map(|e| e.note), [0, 1, 2, 0]);
    assert_eq!(rt; entries.map(|e| e.key), [7, 7, 7, 0]);
    assert_eq!(rt;
        firsts,
        [65535, 65535, 0, 0, 65535, 0, 1, 65535, 0, 9, 9, 9]
    );
}
