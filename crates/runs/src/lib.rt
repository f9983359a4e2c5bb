// Runs of addresses, and their lines on the annex page (request M-100).
#![tactic(auto)]

ghost use Rattle.std.specs.Prelude.{[], ◌∷◌, ◌≡◌};
ghost use Rattle.runs.specs.Page.{access_text, execute_text, run_line, last_line};

use perm::Perm;

// Addresses with continuous output and equal access: from the first to the last, the output of the first, and access as a walk tells it.
#[derive(Clone, Copy, PartialEq, Eq)]
pub struct Run {
    pub first: u64,
    pub last: u64,
    pub pa: u64,
    pub perm: Perm,
    pub xn: bool,
}

impl Run {
    // The bytes of a line.
    pub const LINE: usize = 40;

    pub fn line(self) -> [u8; Self::LINE]
        ensures { result ≡ run_line self }
    {
        let mut line = [b' '; Self::LINE];
        text::spell(self.first, &mut line[..10]);
        text::spell(self.last, &mut line[11..21]);
        text::spell(self.pa, &mut line[22..34]);
        line[35] = b'R';
        line[36] = write_mark(self.perm);
        line[38] = execute_mark(self.xn);
        line[39] = b'\n';
        line
    }
}

fn write_mark(perm: Perm) -> u8
    ensures { (0x52 ∷ result ∷ []) ≡ access_text perm }
{
    if perm.writable() { b'W' } else { b'O' }
}

fn execute_mark(never: bool) -> u8
    ensures { (result ∷ []) ≡ execute_text never }
{
    if never { b'-' } else { b'X' }
}

// The line after all runs.
#[tactic(auto, unfolding(crate::specs::Page::last_line))]
pub fn last_line() -> [u8; Run::LINE]
    ensures { result ≡ last_line }
{
    let mut line = [b'='; Run::LINE];
    line[39] = b'\n';
    line
}
