// Guard books of 32 guards with two values each.
use labels::code_points::CodePoints;
use labels::events::EventWords;
use labels::kind::LabelKind;
use labels::range::Range;
use std::alloc::{AllocError, Global};

// Patterns of random characters.
pub(crate) fn random_words(heap: Global) -> anyhow::Result<EventWords> {
    let mut seed = 1;
    let mut words = EventWords::new(heap)?;
    for i in 0..64u32 {
        let pattern = random_pattern(heap, &mut seed)?;
        words.add(i / 2, &pattern)?;
    }
    Ok(words)
}

fn random_pattern(heap: Global, seed: &mut u32) -> Result<String, AllocError> {
    (0..16u32).map(|_| random_sign(seed)).collect(heap)
}

// The next number of a linear congruential generator, as one of the three characters.
fn random_sign(seed: &mut u32) -> char {
    *seed = seed.wrapping_mul(1664525).wrapping_add(1013904223);
    match (*seed >> 16) % 3 {
        0 => '0',
        1 => '1',
        _ => '-',
    }
}

// The last 16 words, told apart by their four lowest bits. All other words have no guard, so that nearly every
// question passes over the whole table before it finds a word or none.
const LOW_BITS: [&str; 4] = [
    "111111111111---1",
    "111111111111--1-",
    "111111111111-1--",
    "1111111111111---",
];

// Guards 0 to 3 make 16 atoms; each later guard is one of these again, and is asked about in all 16.
pub(crate) fn split_words(heap: Global) -> anyhow::Result<EventWords> {
    let last = String::from_str(heap, "1111111111111111")?;
    let mut words = EventWords::new(heap)?;
    for guard in 0..32u32 {
        let pattern = String::from_str(heap, LOW_BITS[guard as usize % 4])?;
        words.add(guard, &pattern)?;
        words.add(guard, &last)?;
    }
    Ok(words)
}

// Two ranges each of guards 0 to 3: from one number to the next exactly one guard changes, and no set of guards comes
// twice.
const STEPS: [[(u32, u32); 2]; 4] = [
    [(0x10FFF3, 0x10FFF4), (0x10FFFA, 0x10FFFF)],
    [(0x10FFF4, 0x10FFF8), (0x10FFFB, 0x10FFFD)],
    [(0x10FFF2, 0x10FFF5), (0x10FFF8, 0x10FFFB)],
    [(0x10FFF1, 0x10FFF6), (0x10FFFD, 0x10FFFE)],
];

// As `split_words`, with ranges.
pub(crate) fn split_points(heap: Global) -> anyhow::Result<CodePoints> {
    let mut points = CodePoints::new(heap)?;
    for guard in 0..32u32 {
        for (low, high) in STEPS[guard as usize % 4] {
            points.add(guard, &Range { low, high })?;
        }
    }
    Ok(points)
}
