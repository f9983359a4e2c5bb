// The entries that the edges of a span give (hv-s2's check.rs).
#![tactic(auto)]

ghost use Rattle.std.specs.Prelude.{ℕ, ◌<◌, map, ◌≡◌, get_or, replicate};
ghost use Rattle.edge.specs.Edge.{Reads};
ghost use Rattle.edge.specs.declared.Edge.{Edge};
ghost use Rattle.expected.specs.Expected.{lands, noted, expected};
ghost use Rattle.layout.specs.Size.{entries};

use edge::Edge;
use layout::Layout;
use p2m::Span;

// All entries in one pass over the edges, where the Rust goes through the edges once for each frame.
#[tactic(auto, using(crate::proofs::After::noted_all))]
pub fn expected_entries<E: Copy + Into<Edge>>(
    dom: u16,
    span: Span,
    edges: &[E],
    frames: &[[u32; 2]],
) -> [u8; Layout::ENTRIES]
    ensures { (read : E → Edge) → Reads E.converts read
        → (m : ℕ) → m < entries → get_or result m 0 ≡ expected frames.now dom span (map read edges.now) m }
{
    let mut wanted = unmapped();
    for e in edges {
        note(&mut wanted, (*e).into(), dom, span, frames);
    }
    wanted
}

// The entries before any edge.
pub fn unmapped() -> [u8; Layout::ENTRIES]
    ensures { result ≡ replicate entries 0 }
{
    [0; Layout::ENTRIES]
}

// The entries after one edge more. Frame by frame: the lemma `noted_each`.
pub fn note(wanted: &mut [u8], e: Edge, dom: u16, span: Span, frames: &[[u32; 2]])
    ensures { wanted.new ≡ noted frames.now dom span wanted.old e }
{
    let child = e.child as usize;
    // By index: of a slice that was lent by `get_mut` the kit tells the length alone.
    if child < wanted.len() && lands(e, dom, span, frames) {
        wanted[child] = e.perm().code();
    }
}

#[tactic(auto, unfolding(crate::specs::Expected::lands))]
fn lands(e: Edge, dom: u16, span: Span, frames: &[[u32; 2]]) -> bool
    ensures { result ≡ lands frames.now dom span e }
{
    e.counts(frames, dom) && p2m::span_of_table(frames, e.parent) == Some(span)
}
