// The lines of a record: numbers of 16 lower-case hexadecimal digits, one byte after each.
#![tactic(auto)]

ghost use Rattle.std.specs.Prelude.{◌<◌, ◌≡◌, Bool, true};
ghost use Rattle.replay_lines.specs.Bytes.{bytes_of};

use std::io;
use std::io::{ErrorKind, Read, Write};

// More lines than any record has: a proved loop has to end.
const LINES: u32 = 1_000_000;

// Line after line, until `replay` says that there was no whole one.
pub fn each_line<R: Read, W: Write, F: FnMut(&mut R, &mut W) -> io::Result<bool>>(
    input: &mut R,
    output: &mut W,
    mut replay: F,
) -> io::Result<()>
    requires { F.IsAlwaysCallable replay }
    ensures { (kept : F → R → W → Bool)
        → ((f : F) (i : _) (o : _) (r : _) (j : _) (p : _) (g : F)
        → F.step f i o r j p g → kept f i.now o.now ≡ true → kept g j.now p.now ≡ true)
        → kept replay input.old output.old ≡ true
        → (last : F) × (kept last input.new output.new ≡ true) }
{
    for _ in 0..LINES {
        if !replay(input, output)? {
            break;
        }
    }
    Ok(())
}

// None at the end, too where fewer bytes than a number's are left.
pub fn read_number<R: Read>(input: &mut R) -> io::Result<Option<u64>> {
    let mut text = [0; 17];
    match input.read_exact(&mut text) {
        Ok(()) => Ok(Some(number(&text[..16]))),
        Err(e) if e.kind() == ErrorKind::UnexpectedEof => Ok(None),
        Err(e) => Err(e),
    }
}

// Whether all were there: the list holds those that were.
pub fn read_numbers<R: Read>(input: &mut R, x: &mut [u64]) -> io::Result<bool> {
    for number in x.iter_mut() {
        let Some(n) = read_number(input)? else {
            return Ok(false);
        };
        *number = n;
    }
    Ok(true)
}

// As many as the array has, if all are there.
pub fn read_array<R: Read, const N: usize>(input: &mut R) -> io::Result<Option<[u64; N]>> {
    let mut numbers = [0; N];
    let all = read_numbers(input, &mut numbers)?;
    Ok(all.then_some(numbers))
}

fn number(text: &[u8]) -> u64 {
    text.iter().fold(0, |n, c| n << 4 | digit(*c))
}

// Not `to_digit`, which takes the upper case too.
fn digit(c: u8) -> u64
    ensures { result < 16 }
{
    match c {
        b'0'..=b'9' => (c - b'0') as u64,
        b'a'..=b'f' => (c - b'a' + 10) as u64,
        _ => 0,
    }
}

pub fn print_line<W: Write>(output: &mut W, numbers: &[u64]) -> io::Result<()> {
    let Some((last, before)) = numbers.split_last() else {
        return Ok(());
    };
    for n in before {
        output.write_all(&spelled(*n, b' '))?;
    }
    output.write_all(&spelled(*last, b'\n'))
}

// A number's digits and the byte after them, to be written at once: `write!` would write each piece by itself.
fn spelled(n: u64, after: u8) -> [u8; 17] {
    let mut text = [after; 17];
    let mut rest = n;
    for i in 0..16 {
        text[15 - i] = glyph(rest % 16);
        rest /= 16;
    }
    text
}

fn glyph(digit: u64) -> u8
    requires { digit < 16 }
{
    if digit < 10 {
        b'0' + digit as u8
    } else {
        b'a' + (digit - 10) as u8
    }
}

// The bytes of a number, the lowest first.
pub fn bytes(n: u64) -> [u8; 8]
    ensures { result ≡ bytes_of 8 n }
{
    n.to_le_bytes()
}
