// What guards encoding and updates: rows 1 to 14 of document 01's table.
#![tactic(auto)]

ghost use Rattle.std.specs.Prelude.{◌≡◌, eqb, drop};
ghost use Rattle.map_entries.specs.Larger.{largest};
ghost use Rattle.layout.specs.Size.{board_limit};
ghost use Rattle.refusal.specs.Outcome.{outcome_of};
ghost use Rattle.refusal.specs.Table.{first, each_from, pairs};
ghost use Rattle.rows.specs.Rows.{row13, row14, guard_rows, arena_guard_rows};

use layout::{Layout, Table};
use lent_rows::Maps;
use refusal::{Refusal, first};

// Rows 1 to 14.
pub fn guard(arena: &[u64], maps: Maps<'_>, l: Layout) -> Result<(), Refusal>
    ensures { outcome_of result
        ≡ first (arena_guard_rows board_limit arena.now maps.entry.base.now maps.entry.sup.now l) }
{
    guard_at(Layout::BOARD_LIMIT, arena, maps, l)
}

// The same where tables and outputs lie below a limit of the caller's.
#[tactic(auto, using(refusal::proofs::Sequence::in_turn), unfolding(rows::specs::Rows::arena_guard_rows))]
pub fn guard_at(limit: u64, arena: &[u64], maps: Maps<'_>, l: Layout) -> Result<(), Refusal>
    ensures { outcome_of result
        ≡ first (arena_guard_rows limit arena.now maps.entry.base.now maps.entry.sup.now l) }
{
    lent_rows::arena_len(arena)?;
    guard_maps_at(limit, maps, l)
}

// Rows 2 to 14, where no arena is lent.
#[tactic(auto, using(refusal::proofs::Sequence::in_turn), unfolding(rows::specs::Rows::guard_rows))]
pub fn guard_maps_at(limit: u64, maps: Maps<'_>, l: Layout) -> Result<(), Refusal>
    ensures { outcome_of result
        ≡ first (guard_rows limit maps.entry.base.now maps.entry.sup.now l) }
{
    maps.check()?;
    validate::validate_at(limit, l)?;
    all_distinct(l.tables())?;
    backed(l.sup_frames, maps.sup)
}

// Row 13, over every pair.
fn all_distinct(ts: [Table; Layout::TABLES]) -> Result<(), Refusal>
    ensures { outcome_of result ≡ first (pairs row13 ts) }
{
    first::pairs(&ts, distinct)
}

// Row 13.
#[tactic(auto, unfolding(rows::specs::Rows::row13, refusal::specs::Table::first))]
fn distinct(s: Table, t: Table) -> Result<(), Refusal>
    ensures { outcome_of result ≡ first (row13 s t) }
{
    if !(s.present && t.present) {
        return Ok(());
    }
    if s.pa == t.pa {
        return Err(Refusal::TablesEqual {
            first: s.code,
            second: t.code,
        });
    }
    Ok(())
}

// Row 14. No memory is reserved for such a super. The pass that finds no position has no branch to take, and most maps need no other.
#[tactic(auto, using(crate::proofs::Unmapped::all_backed))]
fn backed(sup_frames: u64, sup: &[u8]) -> Result<(), Refusal>
    ensures { outcome_of result ≡ first (each_from (row14 sup_frames) 0 sup.now) }
{
    if unmapped_from(sup_frames, sup) {
        return Ok(());
    }
    first::each_from(sup, |p, byte| reserved(sup_frames, p, byte))
}

#[tactic(auto, unfolding(rows::specs::Rows::row14, refusal::specs::Table::first))]
fn reserved(sup_frames: u64, p: usize, byte: u8) -> Result<(), Refusal>
    ensures { outcome_of result ≡ first (row14 sup_frames p byte) }
{
    if byte != 0 && sup_frames <= p as u64 {
        return Err(Refusal::SuperUnbacked { position: p as u64 });
    }
    Ok(())
}

// Whether no super is mapped at or past sup_frames.
fn unmapped_from(sup_frames: u64, sup: &[u8]) -> bool
    ensures { result ≡ eqb (largest (drop sup_frames sup.now)) 0 }
{
    map_entries::largest(sup.get(sup_frames as usize..).unwrap_or(&[])) == 0
}
