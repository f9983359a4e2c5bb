// Which table a guest could be given to write: no row compares tables with outputs, so board code asks.
#![tactic(auto)]

ghost use Rattle.std.specs.Prelude.{◌<◌, ◌≡◌};
ghost use Rattle.exposed.specs.Exposed.{lies_in, first_window, first_table, exposure, exposure_values};
ghost use Rattle.layout.specs.Size.{uncountable};
ghost use Rattle.refusal.specs.Table.{first};
ghost use Rattle.refusal.specs.Told.{told_of, after};
ghost use Rattle.rows.specs.Rows.{refusals};

use layout::{Layout, Table, Window};
use refusal::{Refusal, Told};

// A table that lies in the output of a window, by their codes.
#[derive(Clone, Copy, PartialEq, Eq)]
pub struct Exposure {
    pub table: u64,
    pub window: u64,
}

// Rows 4 to 12 first; then the lowest table that lies in an output window, and the lowest such window.
#[tactic(auto, using(accepted_facts::proofs::Accepted::accepted_facts))]
pub fn exposed_table(l: Layout) -> Result<Option<Exposure>, Refusal>
    ensures { told_of result ≡ after (first (refusals l)) (exposure l) }
{
    validate::validate(l)?;
    Ok(first_exposed(l))
}

fn first_exposed(l: Layout) -> Option<Exposure>
    requires { l.sup_frames < uncountable }
    ensures { result ≡ exposure l }
{
    // After row 8 the super window is counted.
    let sup = l.super_window()?;
    first_table(l.tables(), windows::windows_of(l, sup))
}

// A loop: the kit has no lemma on what `find_map` returns.
#[tactic(auto, using(crate::proofs::First::tables_from, crate::proofs::First::tables_end))]
fn first_table(ts: [Table; Layout::TABLES], ws: [Window; Layout::WINDOWS]) -> Option<Exposure>
    ensures { result ≡ first_table ts ws }
{
    for t in ts {
        if let Some(lies) = first_window(t, ws) {
            return Some(lies);
        }
    }
    None
}

fn first_window(t: Table, ws: [Window; Layout::WINDOWS]) -> Option<Exposure>
    ensures { result ≡ first_window t ws }
{
    ws.iter().find(|w| lies_in(t, **w)).map(|w| Exposure {
        table: t.code,
        window: w.code,
    })
}

// The difference cannot wrap after the first test.
fn lies_in(t: Table, w: Window) -> bool
    ensures { result ≡ lies_in t w }
{
    t.present && w.present && w.pa <= t.pa && t.pa - w.pa < w.span
}

impl Told for Exposure {
    ghost values = { exposure_values };

    fn words(self) -> [u64; 9] {
        [0, 1, self.table, self.window, 0, 0, 0, 0, 0]
    }
}
