// Replays the Rust's recorded answers on tables. A line of the input is six numbers: which call it is, base and super, how many words of
// the arena are lent, and two operands; the 17 numbers of a layout follow. The arena stays from line to line; a line whose call is 0
// stores a word. The port's nine answers are printed in the same form, with a digest of the arena where the call may store, and must be
// the Rust's, which are the expected output.
#![tactic(auto)]

use layout::Layout;
use lent_rows::Maps;
use refusal::{Refusal, Told};
use std::io;
use std::io::{Read, Write};

fn main(rt: HostRuntime) -> io::Result<()> {
    let mut arena = [0; Layout::ARENA_LEN];
    replay_lines::each_line(&mut rt.stdin(), &mut rt.stdout(), |input, output| {
        replay_line(input, output, &mut arena)
    })
}

// Whether there was a whole line, and the arena has the words that it lends or stores.
fn replay_line<R: Read, W: Write>(
    input: &mut R,
    output: &mut W,
    arena: &mut [u64],
) -> io::Result<bool> {
    let Some(x) = replay_lines::read_array(input)? else {
        return Ok(false);
    };
    if x[0] == 0 {
        return Ok(store(arena, x[1] as usize, x[2] as usize, x[3]).is_some());
    }
    let Some(numbers) = replay_lines::read_array(input)? else {
        return Ok(false);
    };
    let Some(lent) = arena.get_mut(..x[3] as usize) else {
        return Ok(false);
    };
    call(output, lent, &x, layout_numbers::layout_of(&numbers))?;
    Ok(true)
}

// A word at so many places from this one on, if all are there.
fn store(arena: &mut [u64], from: usize, count: usize, word: u64) -> Option<()> {
    arena.get_mut(from..)?.get_mut(..count)?.fill(word);
    Some(())
}

fn call<W: Write>(output: &mut W, arena: &mut [u64], x: &[u64; 6], l: Layout) -> io::Result<()> {
    let [which, base, sup, _, a, b] = *x;
    let maps = Maps {
        base: &replay_lines::bytes(base),
        sup: &replay_lines::bytes(sup),
    };
    match which {
        1 => {
            print_answer(output, encode::encode(arena, maps, l))?;
            print_digest(output, arena)
        }
        2 => {
            print_answer(output, steps_between(arena, maps, l, a, b))?;
            print_digest(output, arena)
        }
        3 => print_answer(
            output,
            walk::walk(arena, &l.tables().map(|table| table.pa), a),
        ),
        _ => print_answer(output, verify::verify_encoding(arena, maps, l)),
    }
}

// The steps from one to another, or to the first that is refused; what the last one says.
fn steps_between(
    arena: &mut [u64],
    maps: Maps<'_>,
    l: Layout,
    from: u64,
    to: u64,
) -> Result<(), Refusal> {
    for n in from..=to {
        update::step(arena, maps, l, n)?;
    }
    Ok(())
}

fn print_answer<W: Write, T: Told>(output: &mut W, answer: Result<T, Refusal>) -> io::Result<()> {
    replay_lines::print_line(output, &refusal::words(answer))
}

fn print_digest<W: Write>(output: &mut W, arena: &[u64]) -> io::Result<()> {
    let digest = arena.iter().fold(0, |digest, word| {
        joined(joined(digest, word % 0x1_0000_0000), word >> 32)
    });
    replay_lines::print_line(output, &[digest])
}

// A polynomial in 65,599 modulo the prime 2^40 - 87, over the low and the high half of each word.
fn joined(digest: u64, half: u64) -> u64 {
    (digest % PRIME * 65_599 + half % 0x1_0000_0000) % PRIME
}

const PRIME: u64 = 0xFF_FFFF_FFA9;
