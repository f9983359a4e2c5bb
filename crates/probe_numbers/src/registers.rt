// The decoding of VTCR_EL2, and VTTBR_EL2, by numbers: each parameter by the code of its field.
ghost use Rattle.std.specs.Prelude.{◌≡◌};
ghost use Rattle.probe_numbers.specs.Registers.{decoded_numbers, part_numbers};

use crate::eight;
use regime::Stage2Regime;
use sizes::VmidBits;

// One more than the width's code, so that it is not nothing, then the parameters in the order of the struct.
pub fn decoded(d: Option<(Stage2Regime, VmidBits)>) -> [u64; 8]
    ensures { result ≡ decoded_numbers d }
{
    let Some((r, b)) = d else {
        return [0; 8];
    };
    [
        b.vs() + 1,
        r.granule.tg0(),
        r.ipa_bits.into(),
        r.start_level.sl0(),
        r.pa_size.ps(),
        r.walk_shareability,
        r.walk_inner,
        r.walk_outer,
    ]
}

pub fn vttbr_parts(v: u64) -> [u64; 8]
    ensures { result ≡ part_numbers v }
{
    eight([
        vttbr::vttbr_table(v),
        vttbr::vttbr_vmid(v, VmidBits::B8).into(),
        vttbr::vttbr_vmid(v, VmidBits::B16).into(),
    ])
}
