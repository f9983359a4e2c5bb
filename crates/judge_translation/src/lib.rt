// Stage 2 translation as crates/manual defines it, level by level: what the judge of an Arm machine links (arm/README.md). No board code
// uses it.
#![tactic(auto)]

ghost use Rattle.std.specs.Prelude.{◌<◌, ◌∷◌, ◌≡◌, length};
ghost use Rattle.descent.specs.Descent.{words_of, fetch};
ghost use Rattle.judge_translation.specs.Answer.{is_at, elsewhere_of, machine_of, access_numbered, translated_of, translation_answer};
ghost use Rattle.layout.specs.Size.{entries, table_count};
ghost use Rattle.manual.specs.Translation.{permits, leaf, level1, level2, level3, translation};

use layout::Layout;

// 1 and the byte, or 0 and 0. A place is an address named, an index and the word that stands there, outside the arena. The accesses
// are numbered: 0 reads, 1 writes, 2 executes at EL0, any other executes at EL1.
#[unsafe(no_mangle)]
pub extern "C" fn judge_translation(
    arena: &[u64],
    tables: &[u64; Layout::TABLES],
    places: &[[u64; 3]],
    xnx: u32,
    access: u32,
    ipa: u64,
    byte: &mut [u64; 1],
) -> u32
    ensures { (result ∷ byte.new)
        ≡ translation_answer arena.now tables.now places.now xnx access ipa }
{
    match translate(arena, tables, places, xnx != 0, access, ipa) {
        Some(pa) => {
            *byte = [pa];
            1
        }
        None => {
            *byte = [0];
            0
        }
    }
}

fn translate(
    arena: &[u64],
    tables: &[u64],
    places: &[[u64; 3]],
    xnx: bool,
    access: u32,
    ipa: u64,
) -> Option<u64>
    requires { length tables.now ≡ table_count }
    ensures { translated_of result
        ≡ translation (machine_of xnx places.now) tables.now (λ left. words_of arena.now)
        (access_numbered access) ipa }
{
    if Layout::ADDRESSABLE <= ipa {
        return None;
    }
    level1(arena, tables, places, xnx, access, ipa, tables[0])
}

fn level1(
    arena: &[u64],
    tables: &[u64],
    places: &[[u64; 3]],
    xnx: bool,
    access: u32,
    ipa: u64,
    named: u64,
) -> Option<u64>
    requires { length tables.now ≡ table_count }
    ensures { translated_of result
        ≡ level1 (machine_of xnx places.now) tables.now (λ left. words_of arena.now)
        (access_numbered access) ipa named }
{
    let index = (ipa / Layout::L1_ENTRY_SIZE % Layout::INDICES) as usize;
    let d = lookup(arena, tables, places, named, index);
    if d % 4 == desc::TABLE {
        let next = d % Layout::OUTPUT_LIMIT / Layout::PAGE_SIZE * Layout::PAGE_SIZE;
        return level2(arena, tables, places, xnx, access, ipa, next);
    }
    if d % 4 != desc::BLOCK {
        return None;
    }
    let first = d % Layout::OUTPUT_LIMIT / Layout::L1_ENTRY_SIZE * Layout::L1_ENTRY_SIZE;
    leaf(xnx, access, first + ipa % Layout::L1_ENTRY_SIZE, d)
}

fn level2(
    arena: &[u64],
    tables: &[u64],
    places: &[[u64; 3]],
    xnx: bool,
    access: u32,
    ipa: u64,
    named: u64,
) -> Option<u64>
    requires { length tables.now ≡ table_count }
    ensures { translated_of result
        ≡ level2 (machine_of xnx places.now) tables.now (λ left. words_of arena.now)
        (access_numbered access) ipa named }
{
    let index = (ipa / Layout::BLOCK_SIZE % Layout::INDICES) as usize;
    let d = lookup(arena, tables, places, named, index);
    if d % 4 == desc::TABLE {
        let next = d % Layout::OUTPUT_LIMIT / Layout::PAGE_SIZE * Layout::PAGE_SIZE;
        return level3(arena, tables, places, xnx, access, ipa, next);
    }
    if d % 4 != desc::BLOCK {
        return None;
    }
    let first = d % Layout::OUTPUT_LIMIT / Layout::BLOCK_SIZE * Layout::BLOCK_SIZE;
    leaf(xnx, access, first + ipa % Layout::BLOCK_SIZE, d)
}

fn level3(
    arena: &[u64],
    tables: &[u64],
    places: &[[u64; 3]],
    xnx: bool,
    access: u32,
    ipa: u64,
    named: u64,
) -> Option<u64>
    requires { length tables.now ≡ table_count }
    ensures { translated_of result
        ≡ level3 (machine_of xnx places.now) tables.now (λ left. words_of arena.now)
        (access_numbered access) ipa named }
{
    let index = (ipa / Layout::PAGE_SIZE % Layout::INDICES) as usize;
    let d = lookup(arena, tables, places, named, index);
    if d % 4 != desc::PAGE {
        return None;
    }
    let first = d % Layout::OUTPUT_LIMIT / Layout::PAGE_SIZE * Layout::PAGE_SIZE;
    leaf(xnx, access, first + ipa % Layout::PAGE_SIZE, d)
}

// The access flag clear faults, and so does an access that is not permitted.
fn leaf(xnx: bool, access: u32, output: u64, d: u64) -> Option<u64>
    ensures { translated_of result ≡ leaf xnx (access_numbered access) output d }
{
    if d / desc::AF % 2 != 1 {
        return None;
    }
    if permits(xnx, access, d) {
        return Some(output);
    }
    None
}

// S2AP's bit 6 reads, bit 7 writes; XN, bit 54, is set where EL0 does not execute, and where EL1 does not without FEAT_XNX.
fn permits(xnx: bool, access: u32, d: u64) -> bool
    ensures { result ≡ permits xnx (access_numbered access) d }
{
    let never = d / desc::XN % 2;
    match access {
        0 => d / 0x40 % 2 == 1,
        1 => d / 0x80 % 2 == 1,
        2 => never == 0,
        _ => {
            if xnx {
                return never == d / 0x20_0000_0000_0000 % 2;
            }
            never == 0
        }
    }
}

// A word of the first table whose address is the one named; else of the first place.
fn lookup(arena: &[u64], tables: &[u64], places: &[[u64; 3]], named: u64, index: usize) -> u64
    requires tables_len { length tables.now ≡ table_count }
    requires index_lt_entries { index < entries }
    ensures { result ≡ fetch (elsewhere_of places.now named index) tables.now
        (words_of arena.now) named index }
{
    for t in 0..Layout::TABLES {
        if tables[t] == named {
            return verify_read::word_at(arena, t * Layout::ENTRIES + index);
        }
    }
    elsewhere(places, named, index as u64)
}

fn elsewhere(places: &[[u64; 3]], named: u64, index: u64) -> u64
    ensures { result ≡ elsewhere_of places.now named index }
{
    for i in 0..places.len() {
        let place = places[i];
        if is_at(place, named, index) {
            return place[2];
        }
    }
    0
}

fn is_at(place: [u64; 3], named: u64, index: u64) -> bool
    ensures { result ≡ is_at named index place }
{
    place[0] == named && place[1] == index
}
