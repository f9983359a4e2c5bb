// Verification (hv-s2's arm64.rs, `verify_encoding`): the words of an arena are read back and compared with what layout and maps want.
#![tactic(auto)]

ghost use Rattle.std.specs.Prelude.{◌≡◌};
ghost use Rattle.refusal.specs.Outcome.{outcome_of};
ghost use Rattle.refusal.specs.Table.{first};
ghost use Rattle.verify_rows.specs.Verifying.{encoding_rows, verify_rows};

use layout::Layout;
use lent_rows::Maps;
use refusal::Refusal;

// Rows 1 to 12, then what is wrong in the words. It accepts words that its decoders read as nothing: its yes does not bound a walk.
#[tactic(auto, using(refusal::proofs::Sequence::in_turn), unfolding(verify_rows::specs::Verifying::verify_rows))]
pub fn verify_encoding(arena: &[u64], maps: Maps<'_>, l: Layout) -> Result<(), Refusal>
    ensures { outcome_of result
        ≡ first (verify_rows arena.now maps.entry.base.now maps.entry.sup.now l) }
{
    lent_rows::arena_len(arena)?;
    maps.check()?;
    validate::validate(l)?;
    verify_words(arena, maps, l)
}

#[tactic(auto, using(refusal::proofs::Sequence::in_turn), unfolding(verify_rows::specs::Verifying::encoding_rows))]
fn verify_words(arena: &[u64], maps: Maps<'_>, l: Layout) -> Result<(), Refusal>
    ensures { outcome_of result
        ≡ first (encoding_rows arena.now maps.entry.base.now maps.entry.sup.now l) }
{
    verify_tables::verify_l1(arena, l)?;
    verify_tables::verify_image(arena, l)?;
    verify_tables::verify_data(arena, l)?;
    verify_leaves::verify_base(arena, maps.base, l)?;
    verify_leaves::verify_super(arena, maps.sup, l)?;
    verify_devices::verify_device(arena, 6, l.device_window())
}
