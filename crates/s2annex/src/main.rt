// Prints the annex page of a scene (request M-100): reads the scene's bytes, and writes those that are printed.
#![tactic(auto)]

ghost use Rattle.std.specs.Prelude.{OnOk};
ghost use Rattle.annex_text.specs.Text.{annex_text};
ghost use Rattle.scene_read.specs.Input.{WritesText};

use std::io;
use std::io::{Read, Write};

fn main(rt: HostRuntime) -> io::Result<()> {
    print_text(&mut rt.stdin(), &mut rt.stdout())
}

// What is printed of the text that is read.
fn print_text<R: Read, W: Write>(input: &mut R, output: &mut W) -> io::Result<()>
    ensures { OnOk result (WritesText annex_text (R.remaining input.old) (W.contents output.old) (W.contents output.new)) }
{
    let s = scene_read::read_all(input)?;
    let mut page = [0; annex::LONGEST];
    let len = annex_text::print(s.read, &s.numbers, &s.base, &s.sup, &mut page);
    output.write_all(&page[..len])
}
