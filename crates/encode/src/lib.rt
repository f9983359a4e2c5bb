// The words that the machine walks (hv-s2's arm64.rs, `encode`).
#![tactic(auto)]

ghost use Rattle.std.specs.Prelude.{ℕ, ◌+◌, ◌*◌, ◌/◌, ◌≤◌, ◌<◌, [], ◌∷◌, map, ◌≡◌, length};
ghost use Rattle.arena.specs.Encoded.{run, one, stored, page_run, super_run, device_run, image_run, area_run, upper_runs};
ghost use Rattle.arena.specs.Encoded.{cleared, encoded};
ghost use Rattle.arena.specs.Over.{Over};
ghost use Rattle.encode.specs.Encoding.{Encoding};
ghost use Rattle.encode.specs.Fits.{SupersFit, DeviceFits};
ghost use Rattle.layout.specs.Size.{entries, board_limit, table_count};
ghost use Rattle.layout.specs.Window.{devices_of};
ghost use Rattle.refusal.specs.All.{All};
ghost use Rattle.refusal.specs.Outcome.{outcome_of};

use areas::Area;
use layout::{Layout, Window};
use lent_rows::Maps;
use refusal::Refusal;

// The words of the six tables.
type Arena = [u64; Layout::ARENA_LEN];

// Rows 1 to 14 come before the first store.
pub fn encode(arena: &mut [u64], maps: Maps<'_>, l: Layout) -> Result<(), Refusal>
    ensures { Encoding board_limit l maps.entry.base.now maps.entry.sup.now arena.old
        (outcome_of result) arena.new }
{
    encode_at(Layout::BOARD_LIMIT, arena, maps, l)
}

// The same where tables and outputs lie below a limit of the caller's.
pub fn encode_at(limit: u64, arena: &mut [u64], maps: Maps<'_>, l: Layout) -> Result<(), Refusal>
    ensures { Encoding limit l maps.entry.base.now maps.entry.sup.now arena.old
        (outcome_of result) arena.new }
{
    guard::guard_at(limit, arena, maps, l)?;
    encode_guarded(arena.as_mut_array().unwrap(), maps, l);
    Ok(())
}

// What rows 1 to 14 have let by. Tables 1 to 3 are not cleared: an old word remains unless overwritten.
fn encode_guarded(arena: &mut Arena, maps: Maps<'_>, l: Layout)
    requires base_len_bound { length maps.base.now ≤ entries }
    requires supers_fit { SupersFit l maps.sup.now }
    requires all { All DeviceFits (devices_of l) }
    ensures { Over (encoded l maps.entry.base.now maps.entry.sup.now) arena.old arena.new }
{
    clear(arena);
    encode_upper(arena, l);
    put_pages(arena, maps.base, l);
    put_supers(arena, maps.sup, l);
    put_device(arena, l.device_window());
}

// Table 4 and on whole, so that no leaf of another guest remains.
fn clear(arena: &mut Arena)
    ensures { Over cleared arena.old arena.new }
{
    arena[3 * Layout::ENTRIES..].fill(0);
}

// Tables 1 to 3.
fn encode_upper(arena: &mut Arena, l: Layout)
    ensures { Over (stored (upper_runs l)) arena.old arena.new }
{
    put_areas(arena, areas::areas(l));
    put_image(arena, l);
    let index = Layout::l2_index(l.data_ipa_base) as usize;
    put(arena, 3, index, arena::table_word(l.l3_data_pa));
}

// Table 1.
fn put_areas(arena: &mut Arena, areas: [Area; Layout::WINDOWS])
    ensures { Over (stored (map area_run areas)) arena.old arena.new }
{
    for a in areas {
        put_area(arena, a);
    }
}

fn put_area(arena: &mut Arena, a: Area)
    ensures { Over (stored (area_run a ∷ [])) arena.old arena.new }
{
    if a.present {
        let slot = a.l1_index() as usize;
        put(arena, 1, slot, arena::table_word(a.table));
    }
}

// Table 2.
fn put_image(arena: &mut Arena, l: Layout)
    ensures { Over (stored (image_run l ∷ [])) arena.old arena.new }
{
    if let Some(pa) = l.guest_image_pa {
        let index = Layout::l2_index(pa) as usize;
        put(arena, 2, index, arena::image_word(pa));
    }
}

// Table 4: a page for each entry of the base map.
fn put_pages(arena: &mut Arena, base: &[u8], l: Layout)
    requires { length base.now ≤ entries }
    ensures { Over (stored (page_run l base.now ∷ [])) arena.old arena.new }
{
    put_run(
        arena,
        4,
        0,
        base.len(),
        |m| arena::page_word(l.data_pa_base, m as u32, base[m]),
    );
}

// Table 5: a block for each entry of the super map, from the window's own slot on. None is mapped at or past sup_frames.
fn put_supers(arena: &mut Arena, sup: &[u8], l: Layout)
    requires { SupersFit l sup.now }
    ensures { Over (stored (super_run l sup.now ∷ [])) arena.old arena.new }
{
    let from = Layout::l2_index(l.sup_ipa_base) as usize;
    put_run(arena, 5, from, sup.len(), |m| {
        arena::block_word(l.sup_pa_base, m as u32, l.sup_wx_exempt, sup[m])
    });
}

// Table 6: the blocks of the device window.
fn put_device(arena: &mut Arena, w: Window)
    requires { DeviceFits w }
    ensures { Over (stored (device_run 6 w ∷ [])) arena.old arena.new }
{
    let from = Layout::l2_index(w.ipa) as usize;
    let count = (w.span / Layout::BLOCK_SIZE) as usize;
    put_run(
        arena,
        6,
        from,
        count,
        |m| arena::device_word(w.ipa, m as u32),
    );
}

// Words of one table from an index on, each at its place.
fn put_run<F: Fn(usize) -> u64>(arena: &mut Arena, table: usize, from: usize, count: usize, word: F)
    requires callable { (m : ℕ) → m < count → F.pre word m }
    requires table_nonzero { 0 < table }
    requires table_le_table_count { table ≤ table_count }
    requires from_le_entries { from ≤ entries }
    requires count_le_entries { count ≤ entries }
    requires fits { (m w : ℕ) → m < count → F.post word m w → (w ≡ 0 → ⊥) → from + m < entries }
    ensures { (f : ℕ → ℕ) → ((m w : ℕ) → F.post word m w → w ≡ f m)
        → Over (stored (run table from count f ∷ [])) arena.old arena.new }
{
    for m in 0..count {
        put(arena, table, from + m, word(m));
    }
}

// A word at its place, unless it is none.
fn put(arena: &mut Arena, table: usize, index: usize, word: u64)
    requires table_nonzero { 0 < table }
    requires table_le_table_count { table ≤ table_count }
    requires index_lt_entries { (word ≡ 0 → ⊥) → index < entries }
    ensures { Over (stored (one table index word ∷ [])) arena.old arena.new }
{
    if word != 0 {
        arena[(table - 1) * Layout::ENTRIES + index] = word;
    }
}
