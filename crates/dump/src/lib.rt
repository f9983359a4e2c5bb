// What is printed of a scene (document 01, "Proved and printed").
#![tactic(auto)]

ghost use Rattle.std.specs.Prelude.{◌≡◌, replicate, get_or};
ghost use Rattle.dump.specs.Dump.{line_at, printed_read};
ghost use Rattle.dump.specs.Pieces.{piece_at, pieces};
ghost use Rattle.dump.specs.declared.Undumped.TheVariants.{BadLine as BadLineOf, Refused};
ghost use Rattle.layout.specs.Size.{arena_length};
ghost use Rattle.printed.specs.Line.{Puts};
ghost use Rattle.refusal.specs.Outcome.{row_of};
ghost use Rattle.scene.specs.Scene.{scene};
ghost use Rattle.scene_text.specs.Reading.{read_of};

use layout::Layout;
use lent_rows::Maps;
use printed::Line;
use refusal::Refusal;
use scene_text::BadLine;

// Why no words are printed.
#[derive(Clone, Copy)]
pub enum Undumped {
    BadLine,
    // The row's number.
    Refused(u64),
}

impl From<BadLine> for Undumped {
    ghost from_gives = { λ _ answer. answer ≡ BadLineOf };

    fn from(_bad: BadLine) -> Self {
        Self::BadLine
    }
}

impl From<Refusal> for Undumped {
    ghost from_gives = { λ refusal answer. answer ≡ Refused (row_of refusal).number };

    fn from(refusal: Refusal) -> Self {
        Self::Refused(refusal.words()[0])
    }
}

// An answer, and the words of the tables.
#[derive(Clone, Copy)]
pub struct Dump {
    pub answer: Result<(), Undumped>,
    pub words: [u64; Layout::ARENA_LEN],
}

impl Dump {
    // Of a scene's numbers and maps, as they were read.
    pub fn of(
        read: Result<(), BadLine>,
        numbers: &[u64; Layout::NUMBERS],
        base: &[u8],
        sup: &[u8],
    ) -> Self
        ensures { pieces result.answer result.words
            ≡ printed_read (read_of read (scene numbers.now base.now sup.now)) }
    {
        let mut words = [0; Layout::ARENA_LEN];
        let answer = encoded(read, numbers, base, sup, &mut words);
        Self { answer, words }
    }
}

// Tables and outputs lie below 2^48: a limit of the dump's own.
fn encoded(
    read: Result<(), BadLine>,
    numbers: &[u64; Layout::NUMBERS],
    base: &[u8],
    sup: &[u8],
    words: &mut [u64; Layout::ARENA_LEN],
) -> Result<(), Undumped>
    requires { words.old ≡ replicate arena_length 0 }
    ensures { pieces result words.new
        ≡ printed_read (read_of read (scene numbers.now base.now sup.now)) }
{
    read?;
    let l = layout_numbers::layout_of(numbers);
    encode::encode_at(Layout::DUMP_LIMIT, words, Maps { base, sup }, l)?;
    Ok(())
}

// The piece of one word: a line, or nothing.
#[tactic(auto, unfolding(crate::specs::Pieces::piece_at))]
pub fn piece(answer: Result<(), Undumped>, words: &[u64], i: usize) -> Line
    ensures { result ≡ piece_at answer words.now i }
{
    match answer {
        Ok(()) => word_piece(words, i),
        Err(_) if i != 0 => Line::new(),
        Err(Undumped::BadLine) => Line::bad(),
        Err(Undumped::Refused(number)) => Line::refused(number),
    }
}

// The same in the front of the buffer; returns its length.
pub fn put_piece(
    answer: Result<(), Undumped>,
    words: &[u64],
    i: usize,
    out: &mut [u8; printed::LINE],
) -> usize
    ensures { Puts (piece_at answer words.now i) out.old result out.new }
{
    piece(answer, words, i).copy_to(out)
}

// A word past the last is 0, and has no line.
#[tactic(auto, unfolding(crate::specs::Dump::line_at))]
fn word_piece(words: &[u64], i: usize) -> Line
    ensures { result ≡ line_at i (get_or words.now i 0) }
{
    let word = words.get(i).copied().unwrap_or(0);
    if word == 0 {
        return Line::new();
    }
    let table = (i / Layout::ENTRIES) as u64 + 1;
    let index = (i % Layout::ENTRIES) as u64;
    Line::word(table, index, word)
}
