// Reads a scene from a reader, such as the program's input, piece by piece.
#![tactic(auto)]

ghost use Rattle.std.specs.Prelude.{IfOk, OnErr};
ghost use Rattle.scene.specs.Lent.{held, SameLists};
ghost use Rattle.scene.specs.Scene.{scene, unset};
ghost use Rattle.scene_read.specs.Input.{ReadsText, LeavesText, LosesText};

use layout::Layout;
use scene::Scene;
use scene_text::{BadLine, Unfinished};
use std::io;
use std::io::Read;

// A scene as it was read: a bad line ended it, or none.
#[derive(Clone, Copy)]
pub struct ReadScene {
    pub read: Result<(), BadLine>,
    pub numbers: [u64; Layout::NUMBERS],
    pub base: [u8; Layout::ENTRIES],
    pub sup: [u8; Layout::ENTRIES],
}

// All that a reader has.
pub fn read_all<R: Read>(input: &mut R) -> io::Result<ReadScene>
    ensures ok { IfOk result (λ s. ReadsText (R.remaining input.old) unset s.read (scene s.numbers s.base s.sup)) }
    ensures err { OnErr result (LosesText (R.remaining input.old) (R.remaining input.new) unset) }
{
    let mut numbers = [0; Layout::NUMBERS];
    let mut base = [0; Layout::ENTRIES];
    let mut sup = [0; Layout::ENTRIES];
    let mut lists = Scene {
        numbers: &mut numbers,
        base: &mut base,
        sup: &mut sup,
    };
    let read = read_scene(input, &mut lists)?;
    Ok(ReadScene {
        read,
        numbers,
        base,
        sup,
    })
}

// A bad line ends the reading.
pub fn read_scene<R: Read>(input: &mut R, scene: &mut Scene<'_>) -> io::Result<Result<(), BadLine>>
    ensures same_lists { SameLists scene.old scene.new }
    ensures ok { IfOk result (λ read. ReadsText (R.remaining input.old) (held scene.old) read (held scene.new)) }
    ensures err { OnErr result (LeavesText (R.remaining input.old) (R.remaining input.new) (held scene.old) (held scene.new)) }
{
    let mut piece = [0; 4096];
    let mut line = Unfinished::<{ scene_text::LINE }>::new();
    // A proved loop has to end: no input has so many pieces.
    for _piece in 0..u64::MAX {
        let n = input.read(&mut piece)?;
        if n == 0 {
            break;
        }
        if let Err(bad) = line.take(&piece[..n], scene) {
            return Ok(Err(bad));
        }
    }
    Ok(line.finish(scene))
}
