// Rows 9 to 12 of document 01's table, of the windows of a layout: each by itself here, pair by pair in `apart` (hv-s2's arm64.rs).
#![tactic(auto)]

ghost use Rattle.std.specs.Prelude.{◌≡◌};
ghost use Rattle.layout.specs.Window.{windows_with};
ghost use Rattle.refusal.specs.Outcome.{outcome_of};
ghost use Rattle.refusal.specs.Table.{first, each};
ghost use Rattle.rows.specs.Rows.{row9, row10, window_rows};

use layout::{Layout, Window};
use refusal::{Refusal, first};

// The four windows, with the super window that row 8 let by.
pub fn windows_of(l: Layout, sup: Window) -> [Window; Layout::WINDOWS]
    ensures { result ≡ windows_with l sup }
{
    [l.image_window(), l.data_window(), sup, l.device_window()]
}

// Rows 9 and 10, each over all windows, then 11 and 12, pair by pair.
#[tactic(auto, using(refusal::proofs::Sequence::in_turn), unfolding(rows::specs::Rows::window_rows))]
pub fn windows(limit: u64, ws: [Window; Layout::WINDOWS]) -> Result<(), Refusal>
    ensures { outcome_of result ≡ first (window_rows limit ws) }
{
    all_inside(ws)?;
    all_reached(limit, ws)?;
    apart::all_apart(ws)
}

fn all_inside(ws: [Window; Layout::WINDOWS]) -> Result<(), Refusal>
    ensures { outcome_of result ≡ first (each row9 ws) }
{
    first::each(&ws, inside)
}

// Row 9. A window has one level 1 entry, and past its end the index of level 2 wraps.
#[tactic(auto, unfolding(rows::specs::Rows::row9, refusal::specs::Table::first))]
fn inside(w: Window) -> Result<(), Refusal>
    ensures { outcome_of result ≡ first (row9 w) }
{
    if !w.present {
        return Ok(());
    }
    let room = Layout::L1_ENTRY_SIZE - w.ipa % Layout::L1_ENTRY_SIZE;
    if Layout::ADDRESSABLE <= w.ipa || room < w.span {
        return Err(Refusal::RegionCrossesL1 {
            l1_index: w.l1_index(),
            span: w.span,
        });
    }
    Ok(())
}

fn all_reached(limit: u64, ws: [Window; Layout::WINDOWS]) -> Result<(), Refusal>
    ensures { outcome_of result ≡ first (each (row10 limit) ws) }
{
    first::each(&ws, |w| reached(limit, w))
}

// Row 10, without the sum, which can leave 64 bits.
#[tactic(auto, unfolding(rows::specs::Rows::row10, refusal::specs::Table::first))]
fn reached(limit: u64, w: Window) -> Result<(), Refusal>
    ensures { outcome_of result ≡ first (row10 limit w) }
{
    if !w.present {
        return Ok(());
    }
    if limit < w.pa || limit - w.pa < w.span {
        return Err(Refusal::OutputPastLimit {
            window: w.code,
            base: w.pa,
        });
    }
    Ok(())
}
