// Trials of the calls by documents 01 and 02, and every refusal of them: reads the trials, and prints the answer to each as a line.
#![tactic(auto)]

mod lines;
mod texts;
mod trial;

use std::io;

// The most bytes of the trials that are read.
const INPUT_LENGTH: usize = 393216;

fn main(rt: HostRuntime) -> io::Result<()> {
    let mut text = [0u8; INPUT_LENGTH];
    let n = input::read_full(rt.stdin(), &mut text)?;
    lines::each_line(&rt, &text[..n])
}
