// What a walk of the tables reaches (hv-s2's arm64.rs, `walk`).
#![tactic(auto)]

ghost use Rattle.std.specs.Prelude.{◌<◌, ◌≡◌};
ghost use Rattle.decode.specs.Decoded.{output_of};
ghost use Rattle.layout.specs.Size.{block, output_limit};
ghost use Rattle.refusal.specs.Told.{told_of};
ghost use Rattle.walk.specs.Walk.{leaf_reach, reading, walked_from};

use decode::Decoded;
use descent::Stop;
use layout::Layout;
use reach::Reach;
use refusal::Refusal;

// Row 1 alone.
#[tactic(auto, unfolding(crate::specs::Walk::walk_of))]
pub fn walk(
    arena: &[u64],
    tables: &[u64; Layout::TABLES],
    ipa: u64,
) -> Result<Option<Reach>, Refusal>
    ensures { told_of result ≡ walked_from arena.now tables.now ipa }
{
    lent_rows::arena_len(arena)?;
    Ok(reach_of(descent::descend(arena, tables, ipa), ipa))
}

// What the leaf says, and the offset below it.
fn reach_of(stop: Stop, ipa: u64) -> Option<Reach>
    ensures { result ≡ reading ipa stop }
{
    match stop {
        Stop::Leaf { level: 3, word } => {
            join(decode::decode_page(word), ipa % Layout::PAGE_SIZE)
        }
        Stop::Leaf { level: _, word } => {
            join(decode::decode_block(word), ipa % Layout::BLOCK_SIZE)
        }
        Stop::Stopped { level: _ } => None,
    }
}

fn join(leaf: Option<Decoded>, offset: u64) -> Option<Reach>
    requires leaf_bound { output_of leaf < output_limit }
    requires offset_lt_block { offset < block }
    ensures { result ≡ leaf_reach offset leaf }
{
    leaf.map(|decoded| Reach {
        pa: decoded.pa + offset,
        perm: decoded.perm,
        xn: decoded.xn,
    })
}
