// Rows 4, 6 and 7 of document 01's table, each over its list: lengths, bases and table addresses (hv-s2's arm64.rs, `validate`).
#![tactic(auto)]

ghost use Rattle.std.specs.Prelude.{true, not, ◌&&◌, ◌≡◌};
ghost use Rattle.std.specs.List.{fold};
ghost use Rattle.layout.specs.declared.Check.{Check};
ghost use Rattle.layout.specs.Check.{checks_of};
ghost use Rattle.refusal.specs.Outcome.{outcome_of};
ghost use Rattle.refusal.specs.Table.{accepted, first, each};
ghost use Rattle.rows.specs.Rows.{row4, row6, row7};

use layout::{Check, Layout, Table, Window};
use refusal::{Refusal, first};

pub fn all_whole(ds: [Window; Layout::DEVICES]) -> Result<(), Refusal>
    ensures { outcome_of result ≡ first (each row4 ds) }
{
    first::each(&ds, whole)
}

// Row 4. A device is mapped by whole blocks.
#[tactic(auto, unfolding(rows::specs::Rows::row4, refusal::specs::Table::first))]
fn whole(d: Window) -> Result<(), Refusal>
    ensures { outcome_of result ≡ first (row4 d) }
{
    if d.span % Layout::BLOCK_SIZE != 0 {
        return Err(Refusal::DeviceWindowUnaligned {
            base: d.ipa,
            len: d.span,
        });
    }
    Ok(())
}

// Row 6, of every check. The pass that finds none that fails needs no array of them in memory, and an aligned layout needs no other.
#[tactic(auto, using(crate::proofs::Quiet::none_noted))]
pub fn all_aligned(l: Layout) -> Result<(), Refusal>
    ensures { outcome_of result ≡ first (each row6 (checks_of l)) }
{
    if none_fails(l.checks()) {
        return Ok(());
    }
    first::each(&l.checks(), aligned)
}

fn none_fails(cs: [Check; Layout::CHECKS]) -> bool
    ensures { result ≡ fold (λ none (c : Check). none && not c.fails) true cs }
{
    cs.iter().fold(true, |none, c| none & !c.fails)
}

// Row 6. Unless it is aligned, a walk's index is not the one that a descriptor was written at.
#[tactic(auto, unfolding(rows::specs::Rows::row6, refusal::specs::Table::first))]
fn aligned(c: Check) -> Result<(), Refusal>
    ensures { outcome_of result ≡ first (row6 c) }
{
    if c.fails {
        return Err(Refusal::WindowUnaligned {
            window: c.code,
            base: c.base,
            align: c.align,
        });
    }
    Ok(())
}

pub fn all_nameable(limit: u64, ts: [Table; Layout::TABLES]) -> Result<(), Refusal>
    ensures { outcome_of result ≡ first (each (row7 limit) ts) }
{
    first::each(&ts, |t| nameable(limit, t))
}

// Row 7. A register or a descriptor would cut the address, and a walk would read another table.
#[tactic(auto, unfolding(rows::specs::Rows::row7, refusal::specs::Table::first))]
fn nameable(limit: u64, t: Table) -> Result<(), Refusal>
    ensures { outcome_of result ≡ first (row7 limit t) }
{
    if !t.present {
        return Ok(());
    }
    if limit <= t.pa || t.pa % Layout::PAGE_SIZE != 0 {
        return Err(Refusal::TableUnnameable {
            table: t.code,
            pa: t.pa,
        });
    }
    Ok(())
}
