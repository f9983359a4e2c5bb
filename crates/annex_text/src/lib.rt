// The annex page of a scene, as it is printed (request M-100).
#![tactic(auto)]

ghost use Rattle.annex_text.specs.Text.{annex_scene, annex_read};
ghost use Rattle.printed.specs.Line.{Puts};
ghost use Rattle.scene.specs.Scene.{scene};
ghost use Rattle.scene_text.specs.Reading.{read_of};

use layout::Layout;
use lent_rows::Maps;
use printed::Line;
use scene_text::BadLine;

// Of a scene's numbers and maps, as they were read. The text stands in the front of the buffer; returns its length.
pub fn print(
    read: Result<(), BadLine>,
    numbers: &[u64; Layout::NUMBERS],
    base: &[u8],
    sup: &[u8],
    out: &mut [u8; annex::LONGEST],
) -> usize
    ensures { Puts (annex_read (read_of read (scene numbers.now base.now sup.now)))
        out.old result out.new }
{
    match read {
        Ok(()) => print_scene(numbers, base, sup, out),
        Err(BadLine) => put(&Line::bad(), out),
    }
}

// No page is longer than the buffer.
fn print_scene(
    numbers: &[u64; Layout::NUMBERS],
    base: &[u8],
    sup: &[u8],
    out: &mut [u8; annex::LONGEST],
) -> usize
    ensures { Puts (annex_scene (scene numbers.now base.now sup.now))
        out.old result out.new }
{
    match annex::annex(out, Maps { base, sup }, layout_numbers::layout_of(numbers)) {
        Ok(bytes) => bytes as usize,
        Err(refusal) => put(&Line::refused(refusal.words()[0]), out),
    }
}

// A line in the front of the buffer; returns its length.
#[tactic(auto, using(std::proofs::lemmas::Slice::overwrites))]
fn put(line: &Line, out: &mut [u8; annex::LONGEST]) -> usize
    ensures { Puts line.now out.old result out.new }
{
    let bytes = line.as_slice();
    out[..bytes.len()].copy_from_slice(bytes);
    bytes.len()
}
