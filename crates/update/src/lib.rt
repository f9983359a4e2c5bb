// The update step (document 01, "Update"): each call makes one store, so that an update may be cut between any two.
#![tactic(auto)]

ghost use Rattle.std.specs.Prelude.{◌<◌, ◌≡◌};
ghost use Rattle.layout.specs.Size.{arena_length};
ghost use Rattle.refusal.specs.Outcome.{outcome_of};
ghost use Rattle.update.specs.Step.{step_count, place_of, stored_by, Stepping};

use layout::Layout;
use lent_rows::Maps;
use refusal::Refusal;

// Every word is zeroed, then every word is stored.
const STEPS: usize = 2 * Layout::ARENA_LEN;

// Rows 1 to 14, then 26, come before the store, which is the only one.
#[tactic(auto, using(refusal::proofs::Sequence::in_turn), unfolding(crate::specs::Step::step_rows, crate::specs::Step::row26, refusal::specs::Table::first))]
pub fn step(arena: &mut [u64], maps: Maps<'_>, l: Layout, n: u64) -> Result<(), Refusal>
    ensures { Stepping l maps.entry.base.now maps.entry.sup.now n arena.old
        (outcome_of result) arena.new }
{
    guard::guard(arena, maps, l)?;
    if STEPS as u64 <= n {
        return Err(Refusal::StepPastLast);
    }
    let number = n as usize;
    arena[place_of(number)] = stored_by(maps, l, number);
    Ok(())
}

// Upwards while words are zeroed, then downwards, so that a table is stored before the word that names it.
fn place_of(n: usize) -> usize
    requires { n < step_count }
    ensures value { result ≡ place_of n }
    ensures upper_bound { result < arena_length }
{
    if n < Layout::ARENA_LEN {
        return n;
    }
    STEPS - 1 - n
}

fn stored_by(maps: Maps<'_>, l: Layout, n: usize) -> u64
    requires { n < step_count }
    ensures { result ≡ stored_by l maps.entry.base.now maps.entry.sup.now n }
{
    if Layout::ARENA_LEN <= n {
        return target_word::target_word(maps, l, STEPS - 1 - n);
    }
    0
}
