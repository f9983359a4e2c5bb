// Prints the tables of a scene (document 01, "Proved and printed"): reads its bytes, and writes those that are printed.
#![tactic(auto)]

ghost use Rattle.std.specs.Prelude.{OnOk};
ghost use Rattle.std.specs.Io.KnownBytes.{Appends};
ghost use Rattle.dump.specs.Pieces.{pieces};
ghost use Rattle.dump.specs.Dump.{dump};
ghost use Rattle.scene_read.specs.Input.{WritesText};

use dump::Dump;
use std::io;
use std::io::{Read, Write};

fn main(rt: HostRuntime) -> io::Result<()> {
    print_text(&mut rt.stdin(), &mut rt.stdout())
}

// What is printed of the text that is read.
fn print_text<R: Read, W: Write>(input: &mut R, output: &mut W) -> io::Result<()>
    ensures { OnOk result (WritesText dump (R.remaining input.old) (W.contents output.old) (W.contents output.new)) }
{
    let s = scene_read::read_all(input)?;
    let dump = Dump::of(s.read, &s.numbers, &s.base, &s.sup);
    write_dump(&dump, output)
}

// Its pieces, one after the other.
fn write_dump<W: Write>(dump: &Dump, output: &mut W) -> io::Result<()>
    ensures { OnOk result (Appends (W.contents output.old) (W.contents output.new)
        (pieces dump.now.answer dump.now.words)) }
{
    for i in 0..dump.words.len() {
        let piece = dump::piece(dump.answer, &dump.words, i);
        output.write_all(piece.as_slice())?;
    }
    Ok(())
}
