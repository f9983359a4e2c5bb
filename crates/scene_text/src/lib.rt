// The lines of a scene, from a text that is read piece by piece (document 01, "Proved and printed").
#![tactic(auto)]

ghost use Rattle.std.specs.Prelude.{◌≤◌, ◌≡◌, [], List, length, take, ℕ, IfOk, OnErr};
ghost use Rattle.scene.specs.Lent.{held, SameLists};
ghost use Rattle.scene.specs.Scene.{scene};
ghost use Rattle.scene_line.specs.Line.{line_of};
ghost use Rattle.scene_text.specs.Reading.{reading, taken, taken_all, finished, going_on, reading_of, read_of};
ghost use Rattle.scene_text.specs.Text.{heard};

use scene::Scene;
use std::marker::Model;

// One byte more than the longest line that says something: a letter, two spaces and 32 digits.
pub const LINE: usize = 36;

// A line that says nothing, which ends the scene.
#[derive(Clone, Copy)]
pub struct BadLine;

// A line that no line feed has ended yet. Of one that is longer than any that says something, the first bytes are kept, which say nothing
// either.
#[derive(Drop)]
pub struct Unfinished<const ROOM: usize> {
    bytes: [u8; ROOM],
    len: usize,
}

impl<const ROOM: usize> Model for Unfinished<ROOM> {
    ghost Value = { List ℕ };

    ghost view = { λ line. take line.len line.bytes };

    ghost invariant = { λ line. line.len ≤ ROOM };
}

impl<const ROOM: usize> Unfinished<ROOM> {
    pub fn new() -> Self
        ensures { result ≡ [] }
    {
        Self {
            bytes: [0; ROOM],
            len: 0,
        }
    }

    // The bytes of a piece, after those that are kept. After a bad line none are.
    pub fn take(&mut self, piece: &[u8], scene: &mut Scene<'_>) -> Result<(), BadLine>
        ensures same_lists { SameLists scene.old scene.new }
        ensures lists { going_on result self.new (held scene.new)
            ≡ taken_all ROOM (reading (held scene.old) self.old) piece.now }
        ensures bad { OnErr result (self.new ≡ []) }
    {
        let taken = take(
            piece,
            &mut self.bytes,
            self.len,
            scene.numbers,
            scene.base,
            scene.sup,
        );
        self.len = taken.unwrap_or(0);
        taken?;
        Ok(())
    }

    // The line that no line feed ends, if there is one.
    pub fn finish(&self, scene: &mut Scene<'_>) -> Result<(), BadLine>
        ensures same_lists { SameLists scene.old scene.new }
        ensures lists { read_of result (held scene.new)
            ≡ finished (reading (held scene.old) self.now) }
    {
        finish(&self.bytes, self.len, scene.numbers, scene.base, scene.sup)
    }
}

// The bytes of a piece, after what is kept of an unfinished line in the front of `line`: how many of its bytes are kept now. Of one that is
// longer than `line`, the first ones.
#[tactic(auto, using(std::proofs::lemmas::List::take_min), unfolding(crate::specs::Reading::taken_all))]
pub fn take(
    piece: &[u8],
    line: &mut [u8],
    kept: usize,
    numbers: &mut [u64],
    base: &mut [u8],
    sup: &mut [u8],
) -> Result<usize, BadLine>
    ensures fits { IfOk result (λ n. n ≤ length line.new) }
    ensures lists { reading_of result line.new (scene numbers.new base.new sup.new)
        ≡ taken_all (length line.old)
        (reading (scene numbers.old base.old sup.old) (take kept line.old))
        piece.now }
{
    let mut len = kept.min(line.len());
    for byte in piece {
        len = take_byte(*byte, line, len, numbers, base, sup)?;
    }
    Ok(len)
}

// The line that no line feed has ended, if there is one.
pub fn finish(
    line: &[u8],
    kept: usize,
    numbers: &mut [u64],
    base: &mut [u8],
    sup: &mut [u8],
) -> Result<(), BadLine>
    ensures { read_of result (scene numbers.new base.new sup.new)
        ≡ finished (reading (scene numbers.old base.old sup.old) (take kept line.now)) }
{
    let len = kept.min(line.len());
    if len == 0 {
        return Ok(());
    }
    set(&line[..len], numbers, base, sup)
}

// A line feed ends the line. A byte is kept where there is room.
fn take_byte(
    byte: u8,
    line: &mut [u8],
    len: usize,
    numbers: &mut [u64],
    base: &mut [u8],
    sup: &mut [u8],
) -> Result<usize, BadLine>
    requires { len ≤ length line.old }
    ensures fits { IfOk result (λ n. n ≤ length line.new) }
    ensures lists { reading_of result line.new (scene numbers.new base.new sup.new)
        ≡ taken (length line.old)
        (reading (scene numbers.old base.old sup.old) (take len line.old)) byte }
{
    if byte == b'\n' {
        set(&line[..len], numbers, base, sup)?;
        return Ok(0);
    }
    if len < line.len() {
        line[len] = byte;
        return Ok(len + 1);
    }
    Ok(len)
}

// What the line says is set.
fn set(line: &[u8], numbers: &mut [u64], base: &mut [u8], sup: &mut [u8]) -> Result<(), BadLine>
    ensures { read_of result (scene numbers.new base.new sup.new)
        ≡ heard (scene numbers.old base.old sup.old) (line_of line.now) }
{
    let said = scene_line::line_of(line).ok_or(BadLine)?;
    let mut lists = Scene { numbers, base, sup };
    lists.apply(said);
    Ok(())
}
