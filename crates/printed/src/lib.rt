// The lines that the dump prints (document 01, "Proved and printed").
#![tactic(auto)]

ghost use Rattle.std.specs.Prelude.{ℕ, ◌+◌, ◌%◌, ◌≤◌, ◌≡◌, List, [], ◌++◌, length, take, drop};
ghost use Rattle.printed.specs.Line.{bad_line, refused_line, decimal, longest, Puts};
ghost use Rattle.printed.specs.Word.{word_line};
ghost use Rattle.printed.specs.declared.TheConstants.{LINE};
ghost use Rattle.text.specs.Digits.{digits};

use std::marker::Model;

// The longest line: REFUSED, a space, 20 digits and a line feed.
pub const LINE: usize = 29;

// The most digits of a number.
const DIGITS: usize = 20;

// A line, or the first bytes of one.
#[derive(Clone, Drop)]
pub struct Line {
    bytes: [u8; LINE],
    len: usize,
}

impl Model for Line {
    ghost Value = { List ℕ };

    ghost view = { λ line. take line.len line.bytes };

    ghost invariant = { λ line. line.len ≤ LINE };
}

impl Line {
    // Where nothing is printed.
    pub fn new() -> Self
        ensures { result ≡ [] }
    {
        Self {
            bytes: [0; LINE],
            len: 0,
        }
    }

    // Where a line of the scene says nothing.
    #[tactic(auto, unfolding(crate::specs::Line::bad_line))]
    pub fn bad() -> Self
        ensures { result ≡ bad_line }
    {
        let mut line = Self::new();
        line.put(b"BAD LINE\n");
        line
    }

    // A refused scene, by the row's number.
    #[tactic(auto, using(crate::proofs::Decimal::few_digits), unfolding(crate::specs::Line::refused_line))]
    pub fn refused(number: u64) -> Self
        ensures { result ≡ refused_line number }
    {
        let mut digits = [0; DIGITS];
        let first = spell_decimal(number, &mut digits);
        let mut line = Self::new();
        line.put(b"REFUSED ");
        line.put(&digits[first..]);
        line.put(b"\n");
        line
    }

    // A word of a table, by its table and index.
    #[tactic(auto, unfolding(crate::specs::Word::word_line))]
    pub fn word(table: u64, index: u64, word: u64) -> Self
        ensures { result ≡ word_line table index word }
    {
        let mut line = Self::new();
        line.put_hex(table, 1);
        line.put(b" ");
        line.put_hex(index, 3);
        line.put(b" ");
        line.put_hex(word, 16);
        line.put(b"\n");
        line
    }

    pub fn as_slice(&self) -> &[u8]
        ensures short { length result.now ≤ longest }
        ensures bytes { result.now ≡ self.now }
    {
        &self.bytes[..self.len]
    }

    // In the front of the buffer; returns its length.
    #[tactic(auto, using(std::proofs::lemmas::Slice::overwrites))]
    pub fn copy_to(&self, out: &mut [u8; LINE]) -> usize
        ensures { Puts self.now out.old result out.new }
    {
        let bytes = self.as_slice();
        out[..bytes.len()].copy_from_slice(bytes);
        bytes.len()
    }

    // A text after the bytes that there are.
    #[tactic(auto, using(std::proofs::lemmas::Slice::overwrites))]
    fn put(&mut self, text: &[u8])
        requires { length self.old + length text.now ≤ LINE }
        ensures { self.new ≡ self.old ++ text.now }
    {
        let end = self.len + text.len();
        self.bytes[self.len..end].copy_from_slice(text);
        self.len = end;
    }

    // The last hexadecimal digits of a number.
    #[tactic(auto, using(std::proofs::lemmas::Slice::overwrites))]
    fn put_hex(&mut self, number: u64, width: usize)
        requires { length self.old + width ≤ LINE }
        ensures { self.new ≡ self.old ++ digits width number }
    {
        let end = self.len + width;
        text::spell(number, &mut self.bytes[self.len..end]);
        self.len = end;
    }
}

// Where a line of the scene says nothing. The line stands in the front of the buffer; returns its length, as the others do.
pub fn bad_line(out: &mut [u8; LINE]) -> usize
    ensures { Puts bad_line out.old result out.new }
{
    Line::bad().copy_to(out)
}

// A refused scene, by the row's number.
pub fn refused_line(number: u64, out: &mut [u8; LINE]) -> usize
    ensures { Puts (refused_line number) out.old result out.new }
{
    Line::refused(number).copy_to(out)
}

// A word of a table, by its table and index.
pub fn word_line(table: u64, index: u64, word: u64, out: &mut [u8; LINE]) -> usize
    ensures { Puts (word_line table index word) out.old result out.new }
{
    Line::word(table, index, word).copy_to(out)
}

// A number's decimal digits, at the end of the buffer; returns the index of the first.
#[tactic(auto, using(crate::proofs::Decimal::decimals, std::proofs::lemmas::Grind::common_steps))]
fn spell_decimal(number: u64, out: &mut [u8; DIGITS]) -> usize
    ensures within { result ≤ DIGITS }
    ensures digits { drop result out.new ≡ decimal DIGITS number }
{
    let mut rest = number;
    for at in (0..DIGITS).rev() {
        out[at] = last_digit(rest);
        if rest < 10 {
            return at;
        }
        rest /= 10;
    }
    0
}

fn last_digit(number: u64) -> u8
    ensures { result ≡ 0x30 + number % 10 }
{
    b'0' + (number % 10) as u8
}
