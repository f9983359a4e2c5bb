// The descent through the tables, from level 1 through level 2 to level 3 (hv-s2's arm64.rs, `walk`).
#![tactic(auto)]

ghost use Rattle.std.specs.Prelude.{◌≤◌, ◌<◌, ◌≡◌, IfSome, eqb, position};
ghost use Rattle.descent.specs.Descent.{index, words_of, fetch, ends_at, next_table, through, stop_of};
ghost use Rattle.descent.specs.Packed.{packed, unpacked};
ghost use Rattle.layout.specs.Size.{entries, table_count};

use layout::Layout;

// Where a descent ends: at a leaf word, or at a level where no word leads on.
#[derive(Clone, Copy)]
pub enum Stop {
    Leaf { level: u32, word: u64 },
    Stopped { level: u32 },
}

// From the l1 address on. An address of 2^39 or more would wrap into the same tables, and stops at level 0.
#[tactic(auto, using(crate::proofs::Packed::back), unfolding(crate::specs::Descent::descend))]
pub fn descend(arena: &[u64], tables: &[u64; Layout::TABLES], ipa: u64) -> Stop
    ensures { result ≡ stop_of tables.now (λ left. words_of arena.now) ipa }
{
    if Layout::ADDRESSABLE <= ipa {
        return Stop::Stopped { level: 0 };
    }
    let word = fetch_from(arena, tables, tables[0], index_at(2, ipa));
    stop_of(through(&arena, tables, 2, word, ipa))
}

// The table that an entry's word leads to.
pub fn next_table(word: u64) -> Option<u64>
    ensures { result ≡ next_table word }
{
    decode::decode_table(word)
}

// From an entry's word, with `left` levels below it. The stop is one number, and the slice is lent by a reference to it, so that the
// compiler makes a loop of the recursion.
fn through(arena: &&[u64], tables: &[u64; Layout::TABLES], left: u32, word: u64, ipa: u64) -> u64
    requires { left ≤ 2 }
    ensures { result ≡ packed (through tables.now (λ n. words_of arena.now.now) left word ipa) }
{
    if left == 0 {
        return end_at(left, word);
    }
    let Some(next) = next_table(word) else {
        return end_at(left, word);
    };
    let below = left - 1;
    let entry = fetch_from(*arena, tables, next, index_at(below, ipa));
    through(arena, tables, below, entry, ipa)
}

// A page at level 3, a block at level 2; level 1 knows none.
fn end_at(left: u32, word: u64) -> u64
    ensures { result ≡ packed (ends_at left word) }
{
    match left {
        0 => {
            if word % 4 == desc::PAGE {
                return word;
            }
            12
        }
        1 => {
            if word % 4 == desc::BLOCK {
                return word;
            }
            8
        }
        _ => 4,
    }
}

fn stop_of(end: u64) -> Stop
    ensures { result ≡ unpacked end }
{
    match end % 4 {
        3 => Stop::Leaf {
            level: 3,
            word: end,
        },
        1 => Stop::Leaf {
            level: 2,
            word: end,
        },
        _ => Stop::Stopped {
            level: (end / 4 % 4) as u32,
        },
    }
}

// The nine index bits of the level with `left` below it.
fn index_at(left: u32, ipa: u64) -> usize
    requires { left ≤ 2 }
    ensures { result ≡ index left ipa }
{
    match left {
        0 => (ipa / Layout::PAGE_SIZE % Layout::INDICES) as usize,
        1 => (ipa / Layout::BLOCK_SIZE % Layout::INDICES) as usize,
        _ => (ipa / Layout::L1_ENTRY_SIZE % Layout::INDICES) as usize,
    }
}

// A word of the first table whose address is the one named; none other is in reach, and reads as zero, as do words past a short arena.
#[tactic(auto, using(crate::proofs::Fetch::fetch_by_position))]
fn fetch_from(arena: &[u64], tables: &[u64; Layout::TABLES], named: u64, index: usize) -> u64
    requires { index < entries }
    ensures { result ≡ fetch 0 tables.now (words_of arena.now) named index }
{
    let Some(t) = table_named(tables, named) else {
        return 0;
    };
    arena.get(t * Layout::ENTRIES + index).copied().unwrap_or(0)
}

fn table_named(tables: &[u64; Layout::TABLES], named: u64) -> Option<usize>
    ensures value { result ≡ position (λ pa. eqb pa named) tables.now }
    ensures upper_bound { IfSome result (λ t. t < table_count) }
{
    tables.iter().position(|pa| *pa == named)
}
