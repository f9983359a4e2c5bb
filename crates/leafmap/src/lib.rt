// Which frames a domain's page tables reach, and at what permission (hv-s2's leafmap.rs).
#![tactic(auto)]

ghost use Rattle.std.specs.Prelude.{map, ◌≡◌};
ghost use Rattle.edge.specs.Edge.{Reads};
ghost use Rattle.edge.specs.declared.Edge.{Edge};
ghost use Rattle.filling.specs.Filling.{filling, filled};
ghost use Rattle.refusal.specs.Outcome.{outcome_of};

use edge::Edge;
use refusal::Refusal;

// The leaves of the domain's tables, from edges or from rows of their six fields. Conflicts are looked for last.
pub fn leaf_map_from_edges<E: Copy + Into<Edge>>(
    edges: &[E],
    frames: &[[u32; 2]],
    dom: u16,
    base: &mut [u8],
    sup: &mut [u8],
) -> Result<(), Refusal>
    ensures { (read : E → Edge) → Reads E.converts read
        → filling base.new sup.new (outcome_of result)
        ≡ filled frames.now dom (map read edges.now) base.old sup.old }
{
    filling::start(base, sup)?;
    for e in edges {
        filling::place((*e).into(), frames, dom, base, sup)?;
    }
    conflict::no_conflict(base, sup)
}
