// The profile program of document 01: reads a value table from standard input and prints its profile.
#![tactic(auto)]

use std::io;
use value_table::record;

// One byte more than a table may have, so that longer input is seen to be too long.
const INPUT_LENGTH: usize = record::MAX_LENGTH + 1;

fn main(rt: HostRuntime) -> io::Result<()> {
    let mut input = [0u8; INPUT_LENGTH];
    let n = input::read_full(rt.stdin(), &mut input)?;
    let mut text = [0u8; report::TEXT_LIMIT];
    let length = report::put_profile(&input[..n], &mut text);
    rt.write_all(&text[..length])
}
