// Texts and their answers.
#![tactic(auto)]

#[cfg(test)]
mod tests {
    use blocks::answer::answer;
    use std::alloc::Global;
    use std::process::Abort;
    use std::test::Fail;

    // The answer to the text is the expected one.
    fn answers(rt: &impl Abort, heap: Global, text: &[u8], expected: &str) -> Result<(), Fail> {
        let out = answer(heap, text)?;
        assert_eq!(rt; out.as_str(), expected);
        Ok(())
    }

    #[test]
    fn prints_atoms(rt: HostRuntime) -> Result<(), Fail> {
        let heap = rt.alloc();
        answers(&rt, heap, b"guard tag\n", "atom label yes\n0 0 -\n")?;
        answers(
            &rt,
            heap,
            b"guard tag\n0 3\n",
            "atom label yes\n0 0 -\n1 3 0\n",
        )?;
        answers(
            &rt,
            heap,
            b"guard low high\n0 D800 DFFF\n",
            "atom label yes\n0 0 -\n",
        )?;
        answers(
            &rt,
            heap,
            b"guard low high\n0 41 5A\n1 50 60\n",
            "atom label yes\n0 0 -\n1 65 0\n2 80 0,1\n3 91 1\n",
        )?;
        answers(
            &rt,
            heap,
            b"guard low high\n1 000000 10FFFF\n",
            "atom label yes\n0 0 1\n",
        )?;
        answers(
            &rt,
            heap,
            b"guard pattern\n0 1---------------\n2 ---------------1\n",
            "atom label yes\n0 0 -\n1 1 2\n2 32768 0\n3 32769 0,2\n",
        )
    }

    #[test]
    fn refuses_lines(rt: HostRuntime) -> Result<(), Fail> {
        let heap = rt.alloc();
        answers(&rt, heap, b"", "refused place\n1 1\n")?;
        answers(&rt, heap, b"guard tags\n", "refused place\n1 1\n")?;
        answers(&rt, heap, b"guard tag\n0\n", "refused place\n1 2\n")?;
        answers(&rt, heap, b"guard tag\n0 3 4\n", "refused place\n1 2\n")?;
        answers(&rt, heap, b"guard tag\n0 3\n\n", "refused place\n1 3\n")?;
        answers(&rt, heap, b"guard tag\n0 3\n0 4", "refused place\n1 3\n")?;
        answers(&rt, heap, b"guard tag\n0  3\n", "refused place\n1 2\n")?;
        answers(&rt, heap, b"guard tag\n00 3\n", "refused place\n2 2\n")?;
        answers(&rt, heap, b"guard tag\n0 100000\n", "refused place\n2 2\n")?;
        answers(
            &rt,
            heap,
            b"guard low high\n0 5a 60\n",
            "refused place\n2 2\n",
        )
    }

    #[test]
    fn refuses_values(rt: HostRuntime) -> Result<(), Fail> {
        let heap = rt.alloc();
        answers(&rt, heap, b"guard tag\n32 3\n", "refused place\n10 2\n")?;
        answers(&rt, heap, b"guard tag\n0 64\n", "refused place\n11 2\n")?;
        answers(
            &rt,
            heap,
            b"guard low high\n0 61 60\n",
            "refused place\n11 2\n",
        )?;
        answers(
            &rt,
            heap,
            b"guard low high\n0 0 110000\n",
            "refused place\n11 2\n",
        )?;
        answers(
            &rt,
            heap,
            b"guard pattern\n0 0101\n",
            "refused place\n11 2\n",
        )
    }

    // The first bad line wins, and on one line the smaller number.
    #[test]
    fn refuses_in_order(rt: HostRuntime) -> Result<(), Fail> {
        let heap = rt.alloc();
        answers(&rt, heap, b"guard tag\n0 64\n0\n", "refused place\n11 2\n")?;
        answers(&rt, heap, b"guard tag\nx 3\t\n", "refused place\n1 2\n")?;
        answers(&rt, heap, b"guard tag\n32 x\n", "refused place\n2 2\n")?;
        answers(&rt, heap, b"guard tag\n32 64\n", "refused place\n10 2\n")?;
        answers(&rt, heap, b"guard pattern\n32 x", "refused place\n1 2\n")
    }
}
