// A kind made outside the library, whose field is any number of its type: labels 0 to a last one, with no guard.
ghost use Rattle.std.specs.Prelude.{false};
ghost use Rattle.pair_tests.specs.UpTo.{up_to};

use atoms::find::atoms;
use atoms::table::AtomTable;
use labels::kind::{AddFault, LabelKind, NarrowKind};
use labels::set::GuardSet;
use pairs::pair::Pair;

#[derive(Clone, Copy)]
struct UpTo {
    last: u32,
}

impl LabelKind for UpTo {
    type Value = ();

    ghost book = { λ k. record { meaning = up_to k.last; formed = λ v. false; labels = λ v x. false; full = λ _ _. false } };

    // Reads the field, so that it is known to be a `u32`.
    fn lawful(&self) {
        let _last = self.last;
    }

    fn count(&self) -> u32 {
        0
    }

    fn label(&self, x: u64) -> bool {
        x <= u64::from(self.last)
    }

    fn holds(&self, _guard: u32, _x: u64) -> bool {
        false
    }

    // No guard holds of a label.
    fn least(&self, yes: GuardSet, no: GuardSet) -> Option<u64> {
        GuardSet::none().fits(yes, no).then_some(0)
    }

    fn add(&mut self, guard: u32, _value: &()) -> Result<(), AddFault> {
        if guard > 31 {
            return Err(AddFault::Guard);
        }
        Err(AddFault::Value)
    }
}

impl NarrowKind for UpTo {
    fn largest(&self) -> u32 {
        self.last
    }
}

#[test]
fn one_atom_without_guards(rt: HostRuntime) {
    let mut table = AtomTable::fresh();
    assert_eq!(rt; atoms(&UpTo { last: 9 }, &mut table), Ok((1, 0)));
    assert_eq!(rt;
        table.atom(0).map(|atom| (atom.label, atom.guards.0)),
        Some((0, 0))
    );
}

#[test]
fn a_pair_of_them(rt: HostRuntime) {
    let largest = UpTo { last: 0xFFFF_FFFF };
    let pair = Pair::new(UpTo { last: 9 }, largest);
    assert!(rt; pair.label(0x9_FFFF_FFFF) && !pair.label(0xA_0000_0000));
    assert_eq!(rt; largest.largest(), 0xFFFF_FFFF);
    let mut table = AtomTable::fresh();
    assert_eq!(rt; atoms(&pair, &mut table), Ok((1, 0)));
}
