// Texts in buffers, and the digits of numbers.
#![tactic(auto)]

ghost use Rattle.std.specs.Prelude.{◌%◌, ◌≡◌, length};
ghost use Rattle.text.specs.Digits.{glyph, digits};
ghost use Rattle.text.specs.Front.{put_at};

// A text from an index of the buffer on, where there is room for it; else the buffer stays.
#[tactic(auto, unfolding(crate::specs::Front::put_at))]
pub fn put(text: &[u8], out: &mut [u8], at: usize)
    ensures { out.new ≡ put_at text.now out.old at }
{
    if out.len() < at {
        return;
    }
    if out.len() - at < text.len() {
        return;
    }
    // Byte by byte: `copy_from_slice` asks for memmove, and the program that links the library for the board has memcpy and memset alone.
    for i in 0..text.len() {
        out[at + i] = text[i];
    }
}

// The last digits of a number, as many as there is room for.
pub fn spell(n: u64, out: &mut [u8])
    ensures { out.new ≡ digits (length out.old) n }
{
    let mut rest = n;
    // By the index: what a reversed `iter_mut` leaves in the buffer is not told.
    for i in (0..out.len()).rev() {
        out[i] = last_digit(rest);
        rest /= 16;
    }
}

fn last_digit(n: u64) -> u8
    ensures { result ≡ glyph (n % 16) }
{
    let d = (n % 16) as u8;
    if d < 10 { b'0' + d } else { b'A' + (d - 10) }
}
