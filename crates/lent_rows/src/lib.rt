// Rows 1 to 3 of document 01's table: the arena and the maps that a caller lends.
#![tactic(auto)]

ghost use Rattle.std.specs.Prelude.{◌≡◌};
ghost use Rattle.refusal.specs.Outcome.{outcome_of};
ghost use Rattle.refusal.specs.Table.{first, each_from};
ghost use Rattle.rows.specs.Rows.{row1, row2, row3, read_rows, length_rows, map_rows};

use layout::Layout;
use refusal::{Refusal, first};

// The two leaf maps of a guest, lent for reading: of base pages, and of supers.
#[derive(Clone, Copy)]
pub struct Maps<'a> {
    pub base: &'a [u8],
    pub sup: &'a [u8],
}

// Row 1.
#[tactic(auto, unfolding(rows::specs::Rows::row1, refusal::specs::Table::first))]
pub fn arena_len(arena: &[u64]) -> Result<(), Refusal>
    ensures { outcome_of result ≡ first (row1 arena.now) }
{
    if arena.len() != Layout::ARENA_LEN {
        return Err(Refusal::ArenaLength);
    }
    Ok(())
}

// Row 2, of one map.
#[tactic(auto, unfolding(rows::specs::Rows::row2, refusal::specs::Table::first))]
pub fn map_len(map: &[u8]) -> Result<(), Refusal>
    ensures { outcome_of result ≡ first (row2 map.now) }
{
    if Layout::ENTRIES < map.len() {
        return Err(Refusal::MapLength);
    }
    Ok(())
}

// Row 3, of one map that is read. The pass that finds no position has no branch to take, and most maps need no other.
#[tactic(auto, using(crate::proofs::Codes::all_codes))]
pub fn map_codes(code: u64, map: &[u8]) -> Result<(), Refusal>
    ensures { outcome_of result ≡ first (each_from (row3 code) 0 map.now) }
{
    if map_entries::largest(map) <= 3 {
        return Ok(());
    }
    first::each_from(map, |p, byte| readable(code, p, byte))
}

// Row 3.
#[tactic(auto, unfolding(rows::specs::Rows::row3, refusal::specs::Table::first))]
fn readable(code: u64, p: usize, byte: u8) -> Result<(), Refusal>
    ensures { outcome_of result ≡ first (row3 code p byte) }
{
    if 3 < byte {
        return Err(Refusal::MapCode {
            map: code,
            position: p as u64,
        });
    }
    Ok(())
}

// Rows 2 and 3, of one map that is read.
#[tactic(auto, using(refusal::proofs::Sequence::in_turn), unfolding(rows::specs::Rows::read_rows))]
pub fn read_map(code: u64, map: &[u8]) -> Result<(), Refusal>
    ensures { outcome_of result ≡ first (read_rows code map.now) }
{
    map_len(map)?;
    map_codes(code, map)
}

impl Maps<'_> {
    // Row 2.
    #[tactic(auto, using(refusal::proofs::Sequence::in_turn), unfolding(rows::specs::Rows::length_rows))]
    pub fn check_lens(self) -> Result<(), Refusal>
        ensures { outcome_of result ≡ first (length_rows self.entry.base.now self.entry.sup.now) }
    {
        map_len(self.base)?;
        map_len(self.sup)
    }

    // Rows 2 and 3, where both maps are read.
    #[tactic(auto, using(refusal::proofs::Sequence::in_turn), unfolding(rows::specs::Rows::map_rows))]
    pub fn check(self) -> Result<(), Refusal>
        ensures { outcome_of result ≡ first (map_rows self.entry.base.now self.entry.sup.now) }
    {
        self.check_lens()?;
        map_codes(1, self.base)?;
        map_codes(2, self.sup)
    }
}
