// Whether a map is what the edges of its span give (hv-s2's check.rs).
#![tactic(auto)]

ghost use Rattle.std.specs.Prelude.{map, ◌≡◌, get_or};
ghost use Rattle.edge.specs.Edge.{Reads};
ghost use Rattle.edge.specs.declared.Edge.{Edge};
ghost use Rattle.exact.specs.Exact.{row25, compared_rows, exact_rows};
ghost use Rattle.refusal.specs.Outcome.{outcome_of};
ghost use Rattle.refusal.specs.Table.{first, each_from};

use edge::Edge;
use layout::Layout;
use p2m::Span;
use refusal::{Refusal, first};

// Each entry is that of the last edge into its frame. Edges are records, or rows of their six fields.
pub fn check_exact<E: Copy + Into<Edge>>(
    dom: u16,
    leaves: &[u8],
    span: Span,
    edges: &[E],
    frames: &[[u32; 2]],
) -> Result<(), Refusal>
    ensures { (read : E → Edge) → Reads E.converts read
        → outcome_of result ≡ first (exact_rows frames.now dom span (map read edges.now) leaves.now) }
{
    let wanted = expected::expected_entries(dom, span, edges, frames);
    compare(dom, leaves, span, &wanted)
}

// Rows 2, 3 and 25: whether the map holds the entries wanted.
#[tactic(auto, using(refusal::proofs::Sequence::in_turn), unfolding(crate::specs::Exact::compared_rows))]
pub fn compare(
    dom: u16,
    leaves: &[u8],
    span: Span,
    wanted: &[u8; Layout::ENTRIES],
) -> Result<(), Refusal>
    ensures { outcome_of result ≡ first (compared_rows dom span (λ m. get_or wanted.now m 0) leaves.now) }
{
    lent_rows::read_map(span.code() as u64, leaves)?;
    same_entries(dom, leaves, wanted)
}

// Row 25, of the lowest entry that differs. An exact map needs no other pass than the comparison.
fn same_entries(dom: u16, leaves: &[u8], wanted: &[u8]) -> Result<(), Refusal>
    ensures { outcome_of result ≡ first (each_from (row25 dom (λ m. get_or wanted.now m 0)) 0 leaves.now) }
{
    if wanted.starts_with(leaves) {
        return Ok(());
    }
    first::each_from(leaves, |m, mapped| same_entry(dom, wanted, m, mapped))
}

// Of one entry.
#[tactic(auto, unfolding(crate::specs::Exact::row25, refusal::specs::Table::first))]
fn same_entry(dom: u16, wanted: &[u8], m: usize, mapped: u8) -> Result<(), Refusal>
    ensures { outcome_of result ≡ first (row25 dom (λ k. get_or wanted.now k 0) m mapped) }
{
    let expected = wanted.get(m).copied().unwrap_or(0);
    if mapped != expected {
        return Err(Refusal::Inexact {
            dom: dom as u64,
            mfn: m as u64,
            mapped: perm::entry_named(mapped),
            expected: perm::entry_named(expected),
        });
    }
    Ok(())
}
