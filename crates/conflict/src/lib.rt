// Row 17 of document 01's table: a frame in both maps (hv-s2's leafmap.rs).
#![tactic(auto)]

ghost use Rattle.std.specs.Prelude.{◌≡◌};
ghost use Rattle.conflict.specs.Conflict.{row17, largest_shared};
ghost use Rattle.refusal.specs.Outcome.{outcome_of};
ghost use Rattle.refusal.specs.Table.{first, each_from};

use refusal::{Refusal, first};

// Row 17: a frame has one span, or it would need two places in memory. The pass that finds no frame has no branch to take, and most
// maps need no other.
#[tactic(auto, using(crate::proofs::Both::none_shared))]
pub fn no_conflict(base: &[u8], sup: &[u8]) -> Result<(), Refusal>
    ensures { outcome_of result ≡ first (each_from (row17 sup.now) 0 base.now) }
{
    if largest_shared(base, sup) == 0 {
        return Ok(());
    }
    first::each_from(base, |m, entry| in_one(sup, m, entry))
}

// Of one entry of the base map.
#[tactic(auto, unfolding(crate::specs::Conflict::row17, refusal::specs::Table::first))]
fn in_one(sup: &[u8], m: usize, entry: u8) -> Result<(), Refusal>
    ensures { outcome_of result ≡ first (row17 sup.now m entry) }
{
    if entry != 0 && map_entries::entry_at(sup, m) != 0 {
        return Err(Refusal::SpanConflict { mfn: m as u64 });
    }
    Ok(())
}

// The largest of the lesser of each frame's two entries: zero only if no frame has an entry in both maps.
fn largest_shared(base: &[u8], sup: &[u8]) -> u8
    ensures { result ≡ largest_shared base.now sup.now }
{
    base.iter()
        .zip(sup)
        .fold(0, |most, (b, s)| most.max((*b).min(*s)))
}
