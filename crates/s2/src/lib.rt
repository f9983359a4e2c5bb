// The calls of board code: numbers and slices in, document 01's number and the carried values out. A layout is lent as its numbers: the
// sixteen fields in their order, with whether there is an image just before the image. A call returns 0 where it accepts.
#![tactic(auto)]

ghost use Rattle.std.specs.Prelude.{[], ◌∷◌, ◌≡◌};
ghost use Rattle.edge.specs.Edge.{edges_of};
ghost use Rattle.refusal.specs.Told.{told_of, told_words};
ghost use Rattle.s2.specs.Answers.{validate_answer, fill_answer, EncodeAnswer, StepAnswer, walk_answer, verify_answer, exposed_answer};
ghost use Rattle.s2.specs.Answers.{PageAnswer, authorized_answer, exact_answer};

use edge::Edge;
use layout::Layout;
use lent_rows::Maps;
use p2m::Span;
use refusal::{Refusal, Told};

// Rows 4 to 12.
#[unsafe(no_mangle)]
pub extern "C" fn s2_validate(layout: &[u64; Layout::NUMBERS], values: &mut [u64; 8]) -> u32
    ensures { (result ∷ values.new) ≡ validate_answer layout.now }
{
    answer(
        validate::validate(layout_numbers::layout_of(layout)),
        values,
    )
}

// Rows 2 and 15 to 17. Both maps are filled, as far as document 01 says where it refuses.
#[unsafe(no_mangle)]
pub extern "C" fn s2_fill(
    edges: &[[u32; 6]],
    frames: &[[u32; 2]],
    dom: u16,
    base: &mut [u8],
    sup: &mut [u8],
    values: &mut [u64; 8],
) -> u32
    ensures { ((result ∷ values.new) ∷ base.new ∷ sup.new ∷ [])
        ≡ fill_answer (edges_of edges.now) frames.now dom base.old sup.old }
{
    answer(
        leafmap::leaf_map_from_edges::<[u32; 6]>(edges, frames, dom, base, sup),
        values,
    )
}

// The same, from edges as records.
#[unsafe(no_mangle)]
pub extern "C" fn s2_fill_edges(
    edges: &[Edge],
    frames: &[[u32; 2]],
    dom: u16,
    base: &mut [u8],
    sup: &mut [u8],
    values: &mut [u64; 8],
) -> u32
    ensures { ((result ∷ values.new) ∷ base.new ∷ sup.new ∷ [])
        ≡ fill_answer edges.now frames.now dom base.old sup.old }
{
    answer(
        leafmap::leaf_map_from_edges(edges, frames, dom, base, sup),
        values,
    )
}

// Rows 1 to 14. A refusal leaves every word of the arena as found.
#[unsafe(no_mangle)]
pub extern "C" fn s2_encode(
    arena: &mut [u64],
    base: &[u8],
    sup: &[u8],
    layout: &[u64; Layout::NUMBERS],
    values: &mut [u64; 8],
) -> u32
    ensures { EncodeAnswer layout.now base.now sup.now arena.old (result ∷ values.new)
        arena.new }
{
    answer(
        encode::encode(arena, Maps { base, sup }, layout_numbers::layout_of(layout)),
        values,
    )
}

// Rows 1 to 14, then 26. One store of an update; a refusal leaves every word of the arena as found.
#[unsafe(no_mangle)]
pub extern "C" fn s2_step(
    arena: &mut [u64],
    base: &[u8],
    sup: &[u8],
    layout: &[u64; Layout::NUMBERS],
    step: u64,
    values: &mut [u64; 8],
) -> u32
    ensures { StepAnswer layout.now base.now sup.now step arena.old
        (result ∷ values.new) arena.new }
{
    let maps = Maps { base, sup };
    answer(
        update::step(arena, maps, layout_numbers::layout_of(layout), step),
        values,
    )
}

// Row 1. What an address reaches over these words.
#[unsafe(no_mangle)]
pub extern "C" fn s2_walk(
    arena: &[u64],
    tables: &[u64; Layout::TABLES],
    ipa: u64,
    values: &mut [u64; 8],
) -> u32
    ensures { (result ∷ values.new) ≡ walk_answer arena.now tables.now ipa }
{
    answer(walker::walk(arena, tables, ipa), values)
}

// Rows 1 to 12 and 18 to 22.
#[unsafe(no_mangle)]
pub extern "C" fn s2_verify(
    arena: &[u64],
    base: &[u8],
    sup: &[u8],
    layout: &[u64; Layout::NUMBERS],
    values: &mut [u64; 8],
) -> u32
    ensures { (result ∷ values.new)
        ≡ verify_answer layout.now arena.now base.now sup.now }
{
    answer(
        verify::verify_encoding(arena, Maps { base, sup }, layout_numbers::layout_of(layout)),
        values,
    )
}

// Rows 4 to 12. Which table lies in which output window.
#[unsafe(no_mangle)]
pub extern "C" fn s2_exposed(layout: &[u64; Layout::NUMBERS], values: &mut [u64; 8]) -> u32
    ensures { (result ∷ values.new) ≡ exposed_answer layout.now }
{
    answer(
        exposed::exposed_table(layout_numbers::layout_of(layout)),
        values,
    )
}

// Rows 2 to 14, then 27. The page is the front part of the buffer, which a refusal leaves as found; its bytes are told.
#[unsafe(no_mangle)]
pub extern "C" fn s2_annex(
    page: &mut [u8],
    base: &[u8],
    sup: &[u8],
    layout: &[u64; Layout::NUMBERS],
    values: &mut [u64; 8],
) -> u32
    ensures { PageAnswer layout.now base.now sup.now page.old (result ∷ values.new)
        page.new }
{
    answer(
        annex::annex(page, Maps { base, sup }, layout_numbers::layout_of(layout)),
        values,
    )
}

// Rows 2, 3, 23 and 24.
#[unsafe(no_mangle)]
pub extern "C" fn s2_authorized(
    dom: u16,
    map: &[u8],
    frames: &[[u32; 2]],
    grants: &[[u32; 4]],
    values: &mut [u64; 8],
) -> u32
    ensures { (result ∷ values.new) ≡ authorized_answer dom map.now frames.now grants.now }
{
    answer(
        authority::check_authorized_with(dom, map, frames, grants),
        values,
    )
}

// Rows 2, 3 and 25.
#[unsafe(no_mangle)]
pub extern "C" fn s2_exact(
    dom: u16,
    map: &[u8],
    span: u32,
    edges: &[[u32; 6]],
    frames: &[[u32; 2]],
    values: &mut [u64; 8],
) -> u32
    ensures { (result ∷ values.new)
        ≡ exact_answer dom map.now span (edges_of edges.now) frames.now }
{
    let span = Span::from(span);
    answer(
        exact::check_exact::<[u32; 6]>(dom, map, span, edges, frames),
        values,
    )
}

// The same, from edges as records.
#[unsafe(no_mangle)]
pub extern "C" fn s2_exact_edges(
    dom: u16,
    map: &[u8],
    span: u32,
    edges: &[Edge],
    frames: &[[u32; 2]],
    values: &mut [u64; 8],
) -> u32
    ensures { (result ∷ values.new) ≡ exact_answer dom map.now span edges.now frames.now }
{
    let span = Span::from(span);
    answer(exact::check_exact(dom, map, span, edges, frames), values)
}

// The number, and the values.
fn answer<T: Told>(told: Result<T, Refusal>, values: &mut [u64; 8]) -> u32
    ensures { (result ∷ values.new) ≡ told_words T.values (told_of told) }
{
    // Word by word: a copy of the slice would wait for the stores of the words.
    let [number, a, b, c, d, e, f, g, h] = refusal::words(told);
    *values = [a, b, c, d, e, f, g, h];
    number as u32
}
