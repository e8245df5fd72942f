//! Texts and what is printed of them.
#![tactic(auto)]

#[cfg(test)]
mod tests {
    use schedule::answer::answer;
    use std::alloc::Global;
    use std::process::Abort;
    use std::test::Fail;

    // The text is answered by exactly these bytes.
    fn says(rt: &impl Abort, heap: Global, text: &str, out: &str) -> Result<(), Fail> {
        let printed = answer(heap, text.as_bytes())?;
        assert!(rt; printed.as_slice() == out.as_bytes(), "{text:?}");
        Ok(())
    }

    #[test]
    fn texts(rt: HostRuntime) -> Result<(), Fail> {
        let cases: [(&str, &str); 23] = [
            // the first line
            ("", "fault 20 line 1\n"),
            ("\n", "fault 17 line 1\n"),
            ("rule third", "fault 20 line 1\n"),
            ("rule third \nvalues 1\ns 0\n", "fault 17 line 1\n"),
            ("rule third\r\nvalues 1\ns 0\n", "fault 17 line 1\n"),
            // the second
            ("rule last\n", "fault 20 line 2\n"),
            ("rule last\nvalues\ns 0\n", "fault 18 line 2\n"),
            ("rule last\nvalues 1  2\ns 0\n", "fault 18 line 2\n"),
            ("rule last\nvalues 1 \ns 0\n", "fault 18 line 2\n"),
            ("rule last\nvalues 65536\n", "fault 18 line 2\n"),
            ("rule last\nvalues 01\nq", "fault 18 line 2\n"),
            (
                "rule last\nvalues 1 2 3 4 5 6 7 8 9 10 11 12 13 14 15 16 17\ns 0\n",
                "fault 18 line 2\n",
            ),
            // a later one
            ("rule last\nvalues 1 2\n", "fault 20 line 3\n"),
            ("rule last\nvalues 1 2\n\n", "fault 19 line 3\n"),
            ("rule last\nvalues 1 2\ns 0\nd 0 \n", "fault 19 line 4\n"),
            ("rule last\nvalues 1 2\ns 0\nd\t0\n", "fault 19 line 4\n"),
            ("rule last\nvalues 1 2\nq 0\nd 0", "fault 19 line 3\n"),
            ("rule last\nvalues 1 2\ns 0\nq 0", "fault 20 line 4\n"),
            // one station alone: four rounds of LastVoting
            (
                "rule last\nvalues 5\ns 0\nd 0\nt 0\ns 0\nd 0\nt 0\ns 0\nd 0\nt 0\ns 0\nd 0\nt 0\n",
                "station 0 up round 4 hull 5 air 100\nbook 4\n",
            ),
            // a crashed station is down, and is refused from then on
            (
                "rule third\nvalues 1 2\nc 1\ns 1\nc 1\n",
                "line 4 refused 9\nline 5 refused 9\nstation 0 up round 0 hull none air 0\nstation 1 down round 0 hull none air 0\nbook 0\n",
            ),
            // the largest number of a step is read, and the call is refused
            (
                "rule last\nvalues 65535\ns 65535\nd 65535\n",
                "line 3 refused 6\nline 4 refused 7\nstation 0 up round 0 hull none air 0\nbook 0\n",
            ),
            // one letter heard of three: 33 hundredths
            (
                "rule third\nvalues 1 2 3\ns 0\nd 0\nt 0\n",
                "station 0 up round 1 hull none air 33\nstation 1 up round 0 hull none air 0\nstation 2 up round 0 hull none air 0\nbook 1\n",
            ),
            // a lost letter, a copy taken once, and one that is late
            (
                "rule third\nvalues 4\ns 0\nr 0\nd 0\nd 0\nt 0\ns 0\nr 0\nx 0\nt 0\ns 0\nd 0\n",
                "station 0 up round 2 hull 4 air 50\nbook 2\n",
            ),
        ];
        for (text, out) in cases {
            says(&rt, rt.alloc(), text, out)?;
        }
        Ok(())
    }

    // Texts that repeat steps up to a bound and past it.
    #[test]
    fn long_texts(rt: HostRuntime) -> Result<(), Fail> {
        let heap = rt.alloc();
        let cases = [
            // 65,536 bytes are read, and one more is too long, whatever the lines hold
            (
                "rule third\nvalues 1\ns 0\n",
                "r 0\nx 0\n",
                8189,
                "station 0 up round 0 hull none air 0\nbook 0\n",
            ),
            (
                "rule third\nvalues 1\ns 00\n",
                "r 0\nx 0\n",
                8189,
                "fault 16 line 0\n",
            ),
            // the pool takes 256 frames
            (
                "rule third\nvalues 1\ns 0\n",
                "r 0\n",
                256,
                "line 259 refused 13\nstation 0 up round 0 hull none air 0\nbook 0\n",
            ),
            // the book takes 1,024 turns
            (
                "rule third\nvalues 8\n",
                "s 0\nx 0\nt 0\n",
                1025,
                "line 3077 refused 14\nstation 0 up round 1024 hull none air 0\nbook 1024\n",
            ),
        ];
        for (head, steps, times, out) in cases {
            let text = format!(in heap; "{head}{}", steps.repeat(heap, times)?)?;
            says(&rt, heap, &text, out)?;
        }
        Ok(())
    }
}
