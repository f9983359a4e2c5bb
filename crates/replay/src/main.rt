// Replays the Rust's recorded answers. A line of the input is a function's number and its eight numbers; the port's eight answers are
// printed in the same form, and must be the Rust's, which are the expected output.
#![tactic(auto)]

use std::io;
use std::io::{Read, Write};

fn main(rt: HostRuntime) -> io::Result<()> {
    replay_lines::each_line(&mut rt.stdin(), &mut rt.stdout(), replay_line)
}

// Whether there was a whole line.
fn replay_line<R: Read, W: Write>(input: &mut R, output: &mut W) -> io::Result<bool> {
    let Some(op) = replay_lines::read_number(input)? else {
        return Ok(false);
    };
    let Some(x) = replay_lines::read_array(input)? else {
        return Ok(false);
    };
    let answer = probe::answer((op & 0xFFFF_FFFF) as u32, &x);
    replay_lines::print_line(output, &answer)?;
    Ok(true)
}
