// What a line of a scene says (document 01, "Proved and printed").
#![tactic(auto)]

ghost use Rattle.std.specs.Prelude.{◌<◌, ◌≡◌, position, IfSome};
ghost use Rattle.fields.specs.Named.{pick};
ghost use Rattle.scene_line.specs.Line.{digit_of, is_entry, is_space, letter_l, line_of, number_of, said, said_after};

use layout::Layout;

#[derive(Clone, Copy)]
pub enum Line {
    Field { field: usize, value: u64 },
    Base { position: usize, code: u8 },
    Super { position: usize, code: u8 },
}

// The field that is 0 or 1.
const EXEMPTION: u64 = 0xF;

// What a line says, without its line feed; a line outside the form says nothing.
#[tactic(auto, using(crate::proofs::Lines::line_read, std::proofs::lemmas::Grind::common_steps))]
pub fn line_of(text: &[u8]) -> Option<Line>
    ensures { result ≡ line_of text.now }
{
    match text {
        [letter, b' ', after @ ..] => said_after(*letter, after),
        _ => None,
    }
}

// The same from its letter and what follows the first space.
#[tactic(auto, using(crate::proofs::Lines::no_space), unfolding(crate::specs::Line::said_after))]
fn said_after(letter: u8, text: &[u8]) -> Option<Line>
    ensures { result ≡ said_after letter text.now }
{
    let end = first_space(text)?;
    let a = number_of(&text[..end])?;
    let b = number_of(&text[end + 1..])?;
    said(letter, a, b)
}

fn first_space(text: &[u8]) -> Option<usize>
    ensures { result ≡ position is_space text.now }
{
    text.iter().position(|c| *c == b' ')
}

// What a letter says of two numbers.
#[tactic(auto, unfolding(crate::specs::Line::said))]
fn said(letter: u8, a: u64, b: u64) -> Option<Line>
    ensures { result ≡ said letter a b }
{
    match letter {
        b'L' => field(a, b),
        b'B' => entry(a, b).map(|(position, code)| Line::Base { position, code }),
        b'U' => entry(a, b).map(|(position, code)| Line::Super { position, code }),
        _ => None,
    }
}

#[tactic(auto, unfolding(crate::specs::Line::said))]
fn field(n: u64, value: u64) -> Option<Line>
    ensures { result ≡ said letter_l n value }
{
    if n < 1 || Layout::FIELDS < n || n == EXEMPTION && 1 < value {
        return None;
    }
    Some(Line::Field {
        field: n as usize,
        value,
    })
}

// A position of a map and its entry's code.
fn entry(position: u64, code: u64) -> Option<(usize, u8)>
    ensures { result ≡ pick (is_entry position code) (Some (position, code)) None }
{
    if 0x1FF < position || 3 < code {
        return None;
    }
    Some((position as usize, code as u8))
}

// At most 16 digits, so that every number fits.
#[tactic(auto, using(crate::proofs::Digits::few_digits), unfolding(crate::specs::Line::number_of))]
fn number_of(text: &[u8]) -> Option<u64>
    ensures { result ≡ number_of text.now }
{
    if text.is_empty() || 16 < text.len() {
        return None;
    }
    let mut n = 0;
    for c in text {
        n = n * 16 + digit(*c)?;
    }
    Some(n)
}

#[tactic(auto, unfolding(crate::specs::Line::digit_of))]
fn digit(c: u8) -> Option<u64>
    ensures value { result ≡ digit_of c }
    ensures below { IfSome result (λ d. d < 16) }
{
    match c {
        b'0'..=b'9' => Some((c - b'0') as u64),
        b'A'..=b'F' => Some((c - b'A' + 10) as u64),
        _ => None,
    }
}
