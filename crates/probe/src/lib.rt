// Every function of the lower layers by a number, with eight numbers in and eight out: what the comparison with the Rust links, by
// probe_c, and what the replay of its recorded answers calls. Nothing else uses it.
#![tactic(auto)]

ghost use Rattle.std.specs.Prelude.{◌≡◌};
ghost use Rattle.probe.specs.Answers.{answer_of};

use probe_numbers::{eight, frames, granules, levels, low, regimes, registers, words};

// The answer of function `op` at `x`; zeros where there is no such function. They are told apart by numbers, since C passes them so.
#[tactic(auto, unfolding(crate::specs::Answers::answer_of))]
pub fn answer(op: u32, x: &[u64; 8]) -> [u64; 8]
    ensures { result ≡ answer_of op x.now }
{
    match op {
        0 => frames::frame(x),
        1 => levels::level(low(x[0])),
        2 => levels::page_type(low(x[0])),
        3 => words::permission(x[0], x[1] != 0),
        4 => words::memory_type(x[0]),
        5 => words::constants(),
        6 => words::words(),
        7 => words::leaf(decode::decode_page(x[0])),
        8 => words::leaf(decode::decode_block(x[0])),
        9 => words::table(decode::decode_table(x[0])),
        10 => words::device(decode::decode_device_block(x[0])),
        11 => granules::granule(x[0]),
        12 => granules::start_level(x[0]),
        13 => granules::pa_size(x[0]),
        14 => granules::vmid_bits(x[0]),
        15 => regimes::stage2_regime(x),
        16 => registers::decoded(vtcr::decode_vtcr_el2(x[0])),
        17 => eight([vttbr::vttbr(x[0], x[1])]),
        18 => registers::vttbr_parts(x[0]),
        _ => [0; 8],
    }
}
