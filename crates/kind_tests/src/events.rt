// Books of event words.
use labels::events::EventWords;
use labels::kind::{AddFault, LabelKind, NarrowKind};
use labels::set::GuardSet;
use std::alloc::{AllocError, Global};
use std::test::Fail;

// What the book answers to the pattern.
fn answer(
    heap: Global,
    words: &mut EventWords,
    guard: u32,
    pattern: &str,
) -> Result<Result<(), AddFault>, AllocError> {
    let text = String::from_str(heap, pattern)?;
    Ok(words.add(guard, &text))
}

#[test]
fn labels_end_at_65535(rt: HostRuntime) -> Result<(), Fail> {
    let words = EventWords::new(rt.alloc())?;
    assert!(rt; words.label(0) && words.label(65535) && !words.label(65536));
    assert_eq!(rt; words.largest(), 65535);
    assert_eq!(rt; words.count(), 0);
    Ok(())
}

#[test]
fn highest_bit_comes_first(rt: HostRuntime) -> Result<(), Fail> {
    let heap = rt.alloc();
    let none = GuardSet::none();
    let mut words = EventWords::new(heap)?;
    assert_eq!(rt; answer(heap, &mut words, 0, "1---------------")?, Ok(()));
    assert_eq!(rt; answer(heap, &mut words, 1, "---------------1")?, Ok(()));
    assert_eq!(rt; answer(heap, &mut words, 2, "0110000000000010")?, Ok(()));
    assert_eq!(rt; words.least(none.with(0), none), Some(32768));
    assert_eq!(rt; words.least(none.with(1), none), Some(1));
    assert_eq!(rt; words.least(none.with(0).with(1), none), Some(32769));
    // 16384 + 8192 + 2
    assert_eq!(rt; words.least(none.with(2), none), Some(24578));
    assert!(rt; words.holds(2, 24578) && !words.holds(2, 24579) && !words.holds(0, 32767));
    Ok(())
}

#[test]
fn a_pattern_has_16_signs(rt: HostRuntime) -> Result<(), Fail> {
    let heap = rt.alloc();
    let mut words = EventWords::new(heap)?;
    assert_eq!(rt;
        answer(heap, &mut words, 0, "01-01-01-01-01-")?,
        Err(AddFault::Value)
    );
    assert_eq!(rt;
        answer(heap, &mut words, 0, "01-01-01-01-01-01")?,
        Err(AddFault::Value)
    );
    assert_eq!(rt;
        answer(heap, &mut words, 0, "01-01-01-01-01-2")?,
        Err(AddFault::Value)
    );
    assert_eq!(rt; answer(heap, &mut words, 0, "")?, Err(AddFault::Value));
    assert_eq!(rt; words.count(), 0);
    assert_eq!(rt; answer(heap, &mut words, 0, "01-01-01-01-01-0")?, Ok(()));
    assert_eq!(rt; words.count(), 1);
    Ok(())
}

#[test]
fn guards_end_at_31(rt: HostRuntime) -> Result<(), Fail> {
    let heap = rt.alloc();
    let mut words = EventWords::new(heap)?;
    assert_eq!(rt;
        answer(heap, &mut words, 32, "----------------")?,
        Err(AddFault::Guard)
    );
    // the guard is looked at before the pattern
    assert_eq!(rt;
        answer(heap, &mut words, 32, "wrong")?,
        Err(AddFault::Guard)
    );
    assert_eq!(rt; words.count(), 0);
    assert_eq!(rt; answer(heap, &mut words, 31, "----------------")?, Ok(()));
    assert_eq!(rt; words.count(), 32);
    Ok(())
}

#[test]
fn a_book_has_64_patterns(rt: HostRuntime) -> Result<(), Fail> {
    let heap = rt.alloc();
    let mut words = EventWords::new(heap)?;
    for _ in 0..64u32 {
        assert_eq!(rt; answer(heap, &mut words, 0, "1---------------")?, Ok(()));
    }
    // a full book is looked for last
    assert_eq!(rt;
        answer(heap, &mut words, 1, "---------------1")?,
        Err(AddFault::Full)
    );
    assert_eq!(rt; answer(heap, &mut words, 1, "wrong")?, Err(AddFault::Value));
    assert_eq!(rt;
        answer(heap, &mut words, 32, "wrong")?,
        Err(AddFault::Guard)
    );
    assert_eq!(rt; words.count(), 1);
    assert!(rt; words.holds(0, 32768) && !words.holds(0, 1) && !words.holds(1, 1));
    Ok(())
}
