// Rows 11 and 12 of document 01's table: the windows of a layout, pair by pair (hv-s2's arm64.rs, `validate`).
#![tactic(auto)]

ghost use Rattle.std.specs.Prelude.{◌+◌, ◌≡◌, ltb, drop};
ghost use Rattle.refusal.specs.Outcome.{outcome_of};
ghost use Rattle.refusal.specs.Table.{first, each, pairs};
ghost use Rattle.rows.specs.Rows.{pair_rows};

use layout::{Layout, Window};
use refusal::{Refusal, first};

pub fn all_apart(ws: [Window; Layout::WINDOWS]) -> Result<(), Refusal>
    ensures { outcome_of result ≡ first (pairs pair_rows ws) }
{
    first::pairs(&ws, apart)
}

// Rows 11 and 12.
#[tactic(auto, unfolding(rows::specs::Rows::pair_rows, refusal::specs::Table::first))]
fn apart(v: Window, w: Window) -> Result<(), Refusal>
    ensures { outcome_of result ≡ first (pair_rows v w) }
{
    if !(v.present && w.present) {
        return Ok(());
    }
    let l1_index = v.l1_index();
    if l1_index == w.l1_index() {
        return Err(Refusal::RegionsCollide { l1_index });
    }
    if begins_below(v.pa, w) && begins_below(w.pa, v) {
        return Err(Refusal::WindowsOverlap);
    }
    Ok(())
}

// Whether an output address is below a window's output end, without the sum.
fn begins_below(pa: u64, w: Window) -> bool
    ensures { result ≡ ltb pa (w.pa + w.span) }
{
    pa < w.pa || pa - w.pa < w.span
}
