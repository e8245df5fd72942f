//! Reads a schedule from standard input and prints its listing, or its fault.
#![tactic(auto)]

use schedule::answer::answer;
use schedule_text::reader::MAX_BYTES;
use std::io::{Read, Write};

fn main(rt: HostRuntime) -> anyhow::Result<()> {
    // One byte more than a schedule may have tells that the text is too long, however much follows.
    let most = MAX_BYTES + 1;
    let mut text = Vec::with_capacity(rt.alloc(), most)?;
    let mut input = rt.stdin().take(most as u64);
    let _count = input.read_to_end(&mut text)?;
    let out = answer(rt.alloc(), text.as_slice())?;
    let mut output = rt.stdout();
    output.write_all(out.as_slice())?;
    Ok(())
}
