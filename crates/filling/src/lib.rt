// The steps of filling leaf maps from edges (hv-s2's leafmap.rs): both maps are cleared, then edges are placed.
#![tactic(auto)]

ghost use Rattle.std.specs.Prelude.{◌≡◌};
ghost use Rattle.filling.specs.Filling.{filling, put, put_in, placed, placed_next, onward, conflicts, started};
ghost use Rattle.refusal.specs.Outcome.{outcome_of};
ghost use Rattle.refusal.specs.Table.{accepted};

use edge::Edge;
use lent_rows::Maps;
use p2m::Span;
use refusal::Refusal;

// Row 2, before any change; then both maps are cleared, so that a lent map keeps no leaf of another domain.
#[tactic(auto, unfolding(crate::specs::Filling::started, crate::specs::Filling::onward))]
pub fn start(base: &mut [u8], sup: &mut [u8]) -> Result<(), Refusal>
    ensures { filling base.new sup.new (outcome_of result) ≡ started base.old sup.old }
{
    Maps { base, sup }.check_lens()?;
    base.fill(0);
    sup.fill(0);
    Ok(())
}

// One edge: the span is its parent's, since a frame does not know how much of the address space maps it.
#[tactic(auto, unfolding(crate::specs::Filling::placed))]
pub fn place(
    e: Edge,
    frames: &[[u32; 2]],
    dom: u16,
    base: &mut [u8],
    sup: &mut [u8],
) -> Result<(), Refusal>
    ensures { filling base.new sup.new (outcome_of result)
        ≡ placed frames.now dom (filling base.old sup.old accepted) e }
{
    if !e.counts(frames, dom) {
        return Ok(());
    }
    let span = p2m::span_of_table(frames, e.parent).ok_or_else(|| Refusal::UnsupportedSpan {
        parent: e.parent as u64,
    })?;
    match span {
        Span::Base => put(base, e)?,
        Span::Super => put(sup, e)?,
    }
    Ok(())
}

// One edge more, from where a filling stands: what a row has refused stays as it is.
#[tactic(auto, unfolding(crate::specs::Filling::onward))]
pub fn place_next(
    so_far: Result<(), Refusal>,
    e: Edge,
    frames: &[[u32; 2]],
    dom: u16,
    base: &mut [u8],
    sup: &mut [u8],
) -> Result<(), Refusal>
    ensures { filling base.new sup.new (outcome_of result)
        ≡ placed_next frames.now dom (filling base.old sup.old (outcome_of so_far)) e }
{
    so_far?;
    place(e, frames, dom, base, sup)
}

// The refusal, or row 17.
#[tactic(auto, unfolding(crate::specs::Filling::onward, crate::specs::Filling::conflicts))]
pub fn finish(so_far: Result<(), Refusal>, base: &[u8], sup: &[u8]) -> Result<(), Refusal>
    ensures { filling base.now sup.now (outcome_of result)
        ≡ onward conflicts (filling base.now sup.now (outcome_of so_far)) }
{
    so_far?;
    conflict::no_conflict(base, sup)
}

// The edge's entry at its child, or row 16.
#[tactic(auto, unfolding(crate::specs::Filling::put_in))]
fn put(map: &mut [u8], e: Edge) -> Result<(), Refusal>
    ensures { put map.new (outcome_of result) ≡ put_in map.old e }
{
    let child = e.child as usize;
    if map.len() <= child {
        return Err(Refusal::OutOfRange {
            mfn: e.child as u64,
            capacity: map.len() as u64,
        });
    }
    map[child] = e.perm().code();
    Ok(())
}
