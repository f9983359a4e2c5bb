// Verification of tables 1 to 3 (hv-s2's arm64.rs, `verify_encoding`): the words that name tables, the image's block, and no others.
#![tactic(auto)]

ghost use Rattle.std.specs.Prelude.{ℕ, ◌*◌, ◌≤◌, ◌<◌, ◌≡◌, length, slice_index, ◌==◌, ◌+◌};
ghost use Rattle.areas.specs.Area.{live_areas_of};
ghost use Rattle.layout.specs.Size.{entries};
ghost use Rattle.refusal.specs.Outcome.{outcome_of};
ghost use Rattle.refusal.specs.Table.{first, each};
ghost use Rattle.verify_rows.specs.Verifying.{live_row, window_at, image_at, live_at, other_row, other_rows, l1_rows, image_rows, data_rows};
ghost use Rattle.verify_tables.specs.Sooner.{OnlySooner};

use areas::Area;
use layout::Layout;
use refusal::Refusal;
use verify_word::Word;

// Table 1.
#[tactic(auto, using(refusal::proofs::Sequence::in_turn), unfolding(verify_rows::specs::Verifying::l1_rows))]
pub fn verify_l1(arena: &[u64], l: Layout) -> Result<(), Refusal>
    ensures { outcome_of result ≡ first (l1_rows arena.now l) }
{
    live_words(arena, l)?;
    other_words(arena, l, 1)
}

// Data, super, image, device: one at a time, so that no array of them is made.
fn live_words(arena: &[u64], l: Layout) -> Result<(), Refusal>
    ensures { outcome_of result ≡ first (each (live_row arena.now) (live_areas_of l)) }
{
    verify_rows::each_between(
        0,
        Layout::WINDOWS as u32,
        |i| live_word(arena, areas::live_area(l, i as usize)),
    )
}

// Row 18.
#[tactic(auto, unfolding(verify_rows::specs::Verifying::live_row, refusal::specs::Table::first))]
fn live_word(arena: &[u64], area: Area) -> Result<(), Refusal>
    ensures { outcome_of result ≡ first (live_row arena.now area) }
{
    if !area.present {
        return Ok(());
    }
    Word::at(arena, 1, area.l1_index() as u32).table_entry(area.table)
}

// Table 2. With no image every word is wanted to be 0.
#[tactic(auto, using(refusal::proofs::Sequence::in_turn), unfolding(verify_rows::specs::Verifying::image_rows, refusal::specs::Table::first))]
pub fn verify_image(arena: &[u64], l: Layout) -> Result<(), Refusal>
    ensures { outcome_of result ≡ first (image_rows arena.now l) }
{
    if let Some(pa) = l.guest_image_pa {
        Word::at(arena, 2, Layout::l2_index(pa) as u32).image_block(pa)?;
    }
    other_words(arena, l, 2)
}

// Table 3.
#[tactic(auto, using(refusal::proofs::Sequence::in_turn), unfolding(verify_rows::specs::Verifying::data_rows))]
pub fn verify_data(arena: &[u64], l: Layout) -> Result<(), Refusal>
    ensures { outcome_of result ≡ first (data_rows arena.now l) }
{
    Word::at(arena, 3, Layout::l2_index(l.data_ipa_base) as u32).table_entry(l.l3_data_pa)?;
    other_words(arena, l, 3)
}

// Row 21 of one of tables 1 to 3. A word that is not 0 is compared with the slots as the layout gives them.
fn other_words(arena: &[u64], l: Layout, table: u32) -> Result<(), Refusal>
    ensures { outcome_of result ≡ first (other_rows arena.now l table) }
{
    let mut j = past_zeros(arena, table, 0);
    while j < Layout::ENTRIES {
        other_word(arena, l, table, j as u32)?;
        j = past_zeros(arena, table, j + 1);
    }
    Ok(())
}

// Where to go on from j: past words that are 0, four a turn. Nothing but time depends on it.
fn past_zeros(arena: &[u64], table: u32, j: usize) -> usize
    requires { j ≤ entries }
    ensures { OnlySooner arena.now table j result }
{
    let from = Layout::first_word(table);
    // A short arena is read word by word.
    let Some(words) = arena.get(from + j..from + Layout::ENTRIES) else {
        return j;
    };
    j + zero_fours(words) * 4
}

// How many fours of words, from the first on, are 0.
fn zero_fours(words: &[u64]) -> usize
    ensures within { result * 4 ≤ length words.now }
    ensures zeros { (k : ℕ) → k < result * 4 → slice_index words.now k ≡ 0 }
{
    words
        .chunks_exact(4)
        .take_while(|four| four.iter().all(|d| *d == 0))
        .count()
}

#[tactic(auto, unfolding(verify_rows::specs::Verifying::other_row, refusal::specs::Table::first))]
fn other_word(arena: &[u64], l: Layout, table: u32, j: u32) -> Result<(), Refusal>
    ensures { outcome_of result ≡ first (other_row arena.now l table j) }
{
    let word = Word::at(arena, table, j);
    if word.desc == 0 || live_at(l, table, j as u64) {
        return Ok(());
    }
    Err(word.spurious())
}

// Whether a word of one of tables 1 to 3 is wanted.
fn live_at(l: Layout, table: u32, j: u64) -> bool
    ensures { result ≡ live_at l table j }
{
    match table {
        1 => window_at(l, j),
        2 => image_at(l, j),
        _ => Layout::l2_index(l.data_ipa_base) == j,
    }
}

fn window_at(l: Layout, j: u64) -> bool
    ensures { result ≡ window_at (live_areas_of l) j }
{
    (0..Layout::WINDOWS).any(|i| areas::live_area(l, i).has(j))
}

fn image_at(l: Layout, j: u64) -> bool
    ensures { result ≡ image_at l j }
{
    l.guest_image_pa.is_some_and(|pa| Layout::l2_index(pa) == j)
}
