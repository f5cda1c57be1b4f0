// Reads a guard book from standard input and prints its atoms.
#![tactic(auto)]

use blocks::answer::answer;
use std::io;
use std::io::Read;

fn main(rt: HostRuntime) -> io::Result<()> {
    let heap = rt.alloc();
    let mut text = Vec::new(heap);
    let _ = rt.stdin().read_to_end(&mut text)?;
    let out = answer(heap, &text)?;
    rt.print(out)
}
