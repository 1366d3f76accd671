//! Reads commands from standard input, each ended by LF, and prints the answer to each.
#![tactic(auto)]

use std::io::{BufRead, BufReader};
use texts::{Words, carry_out};

fn main(rt: HostRuntime) -> anyhow::Result<()> {
    let heap = rt.alloc();
    for text in BufReader::new(heap, rt.stdin())?.split(heap, b'\n') {
        let answer = carry_out(text?.as_slice());
        println!(rt; "{}", Words(answer))?;
    }
    Ok(())
}
