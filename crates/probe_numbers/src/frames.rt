// The owner, kind and span of a frame by numbers.
ghost use Rattle.std.specs.Prelude.{◌≡◌};
ghost use Rattle.probe_numbers.specs.Frames.{frame_row, frame_numbers, frame_answer};

use crate::{eight, low};

// Up to three rows of owner and kind, how many there are, and the frame.
#[tactic(auto, unfolding(crate::specs::Frames::frame_answer))]
pub fn frame(x: &[u64; 8]) -> [u64; 8]
    ensures { result ≡ frame_answer x.now }
{
    let rows = [row(x[0], x[1]), row(x[2], x[3]), row(x[4], x[5])];
    let count = rows.len().min(x[6] as usize);
    frame_numbers(&rows[..count], low(x[7]))
}

fn row(owner: u64, kind: u64) -> [u32; 2]
    ensures { result ≡ frame_row owner kind }
{
    [low(owner), low(kind)]
}

// An owner is a domain's number, or the first that is nobody's.
fn frame_numbers(frames: &[[u32; 2]], mfn: u32) -> [u64; 8]
    ensures { result ≡ frame_numbers frames.now mfn }
{
    eight([
        p2m::owner_of(frames, mfn).map_or(65536, u64::from),
        p2m::kind_of(frames, mfn).into(),
        p2m::span_of_table(frames, mfn).map_or(0, |span| span.code().into()),
    ])
}
