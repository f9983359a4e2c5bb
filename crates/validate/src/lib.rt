// Rows 4 to 12 of document 01's table, of a layout (hv-s2's arm64.rs, `validate`).
#![tactic(auto)]

ghost use Rattle.std.specs.Prelude.{◌≡◌, MatchResult};
ghost use Rattle.layout.specs.Window.{super_window};
ghost use Rattle.refusal.specs.Outcome.{outcome_of, row_of};
ghost use Rattle.refusal.specs.Table.{accepted, refused, first};
ghost use Rattle.rows.specs.Rows.{row5, row8, capped, refusals_at, refusals};

use layout::{Layout, Window};
use refusal::Refusal;

// What encoding assumes of a layout. A layout that breaks it would be mapped wrongly with no fault.
pub fn validate(l: Layout) -> Result<(), Refusal>
    ensures { outcome_of result ≡ first (refusals l) }
{
    validate_at(Layout::BOARD_LIMIT, l)
}

// The same where tables and outputs lie below a limit of the caller's.
#[tactic(auto, using(refusal::proofs::Sequence::in_turn), unfolding(rows::specs::Rows::refusals_at))]
pub fn validate_at(limit: u64, l: Layout) -> Result<(), Refusal>
    ensures { outcome_of result ≡ first (refusals_at limit l) }
{
    alignment::all_whole(l.devices())?;
    granule(l)?;
    alignment::all_aligned(l)?;
    let held = capped(limit);
    alignment::all_nameable(held, l.tables())?;
    let sup = counted(l)?;
    windows::windows(held, windows::windows_of(l, sup))
}

// Row 5.
#[tactic(auto, unfolding(rows::specs::Rows::row5, refusal::specs::Table::first))]
fn granule(l: Layout) -> Result<(), Refusal>
    ensures { outcome_of result ≡ first (row5 l) }
{
    if l.frame_size != Layout::PAGE_SIZE {
        return Err(Refusal::GranuleNotEmitted {
            frame_size: l.frame_size,
        });
    }
    Ok(())
}

// The super window, which row 8 lets by.
#[tactic(auto, unfolding(rows::specs::Rows::row8, refusal::specs::Table::first))]
fn counted(l: Layout) -> Result<Window, Refusal>
    ensures { MatchResult result (λ sup. (accepted ≡ first (row8 l)) × (sup ≡ super_window l)) (λ r. refused (row_of r) ≡ first (row8 l)) }
{
    l.super_window().ok_or(Refusal::SuperFramesUncountable {
        count: l.sup_frames,
    })
}

// A descriptor holds no address from 2^48 on.
fn capped(limit: u64) -> u64
    ensures { result ≡ capped limit }
{
    limit.min(Layout::OUTPUT_LIMIT)
}
