// The word that encoding into zeros leaves at a place of the arena: what an update stores.
#![tactic(auto)]

ghost use Rattle.std.specs.Prelude.{ℕ, ◌≡◌};
ghost use Rattle.arena.proofs.At.{l1_at, image_at, data_at};
ghost use Rattle.arena.specs.Encoded.{run, page_at, super_run, device_run, target};
ghost use Rattle.layout.specs.Window.{device_window};
ghost use Rattle.target_word.specs.Run.{run_at};

use layout::Layout;
use lent_rows::Maps;

#[tactic(auto, using(crate::proofs::Place::by_table))]
pub fn target_word(maps: Maps<'_>, l: Layout, i: usize) -> u64
    ensures { result ≡ target l maps.entry.base.now maps.entry.sup.now i }
{
    let j = (i % Layout::ENTRIES) as u32;
    match i / Layout::ENTRIES {
        0 => l1_word(l, j),
        1 => image_word(l, j),
        2 => data_word(l, j),
        3 => page_word(maps.base, l, j),
        4 => super_word(maps.sup, l, j),
        5 => device_word(l, j),
        _ => 0,
    }
}

// Of table 1. Where areas share a slot, which row 11 refuses, the last one's word stands.
fn l1_word(l: Layout, j: u32) -> u64
    ensures { result ≡ l1_at l j }
{
    areas::areas(l).iter().fold(
        0,
        |word, a| if a.has(j as u64) {
            arena::table_word(a.table)
        } else {
            word
        },
    )
}

// Of table 2.
#[tactic(auto, using(std::proofs::lemmas::Bool::Decides::nat_tests))]
fn image_word(l: Layout, j: u32) -> u64
    ensures { result ≡ image_at l j }
{
    match l.guest_image_pa {
        Some(pa) if Layout::l2_index(pa) == j as u64 => arena::image_word(pa),
        _ => 0,
    }
}

// Of table 3.
#[tactic(auto, using(std::proofs::lemmas::Bool::Decides::nat_tests))]
fn data_word(l: Layout, j: u32) -> u64
    ensures { result ≡ data_at l j }
{
    if Layout::l2_index(l.data_ipa_base) == j as u64 {
        return arena::table_word(l.l3_data_pa);
    }
    0
}

// Of table 4.
fn page_word(base: &[u8], l: Layout, j: u32) -> u64
    ensures { result ≡ page_at l.data_pa_base base.now j }
{
    arena::page_word(l.data_pa_base, j, map_entries::entry_at(base, j as usize))
}

// Of table 5: the super at this slot, if it is one of sup_frames.
fn super_word(sup: &[u8], l: Layout, j: u32) -> u64
    ensures { result ≡ run_at (super_run l sup.now) j }
{
    run_word(Layout::l2_index(l.sup_ipa_base), l.sup_frames, j, |m| {
        arena::block_word(
            l.sup_pa_base,
            m,
            l.sup_wx_exempt,
            map_entries::entry_at(sup, m as usize),
        )
    })
}

// Of table 6: the device's block at this slot. A device of no length has no block.
fn device_word(l: Layout, j: u32) -> u64
    ensures { result ≡ run_at (device_run 6 (device_window l)) j }
{
    run_word(
        Layout::l2_index(l.device_base),
        l.device_len / Layout::BLOCK_SIZE,
        j,
        |m| arena::device_word(l.device_base, m),
    )
}

// Of a table that has one run of words, `count` of them from index `from` on: the word at this index.
fn run_word<F: Fn(u32) -> u64>(from: u64, count: u64, j: u32, word: F) -> u64
    requires { F.IsAlwaysCallable word }
    ensures { (t : ℕ) (f : ℕ → ℕ) → ((m w : ℕ) → F.post word m w → w ≡ f m)
        → result ≡ run_at (run t from count f) j }
{
    match (j as u64).checked_sub(from) {
        Some(m) if m < count => word(m as u32),
        _ => 0,
    }
}
