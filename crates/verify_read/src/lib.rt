// What verification reads of a word, and the leaf that an entry wants there (hv-s2's arm64.rs).
#![tactic(auto)]

ghost use Rattle.std.specs.Prelude.{◌≡◌, get_or};
ghost use Rattle.verify_rows.specs.Verifying.{word};
ghost use Rattle.verify_rows.specs.Word.{read_page, read_block, same_leaf, wanted_leaf};

use decode::Decoded;
use layout::Layout;

// A word of the arena, 0 past its end.
pub fn word_at(arena: &[u64], i: usize) -> u64
    ensures { result ≡ get_or arena.now i 0 }
{
    arena.get(i).copied().unwrap_or(0)
}

// Word j of a table.
pub fn table_word(arena: &[u64], table: u32, j: u32) -> u64
    ensures { result ≡ word arena.now table j }
{
    word_at(arena, Layout::first_word(table) + j as usize)
}

// What verification reads of a leaf: a page's, and a block's.
pub fn read_page(d: u64) -> Option<Decoded>
    ensures { result ≡ read_page d }
{
    decode::decode_page(d)
}

pub fn read_block(d: u64) -> Option<Decoded>
    ensures { result ≡ read_block d }
{
    decode::decode_block(d)
}

// The leaf that an entry of a map wants at an address.
pub fn wanted_leaf(entry: u8, pa: u64, exempt: bool) -> Option<Decoded>
    ensures { result ≡ wanted_leaf entry pa exempt }
{
    perm::entry_named(entry).map(|perm| {
        let a = desc::leaf_access_xn(perm, exempt);
        Decoded {
            pa,
            perm: a.access,
            xn: a.xn,
        }
    })
}

// Whether two leaves agree in what verification compares.
pub fn same_leaf(found: Option<Decoded>, want: Option<Decoded>) -> bool
    ensures { result ≡ same_leaf found want }
{
    found == want
}
