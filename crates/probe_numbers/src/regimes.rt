// regime and the encoding of VTCR_EL2 by numbers: each parameter by the code of its field.
ghost use Rattle.std.specs.Prelude.{◌≡◌};
ghost use Rattle.probe_numbers.specs.Regimes.{regime_by_codes, numbers_of, regime_answer};

use crate::{granules, low};
use granule::{Granule, StartLevel};
use regime::Stage2Regime;
use sizes::{PaSize, VmidBits};

// The regime's parameters in the order of the struct, then the width of a VMID.
#[tactic(auto, unfolding(crate::specs::Regimes::regime_answer))]
pub fn stage2_regime(x: &[u64; 8]) -> [u64; 8]
    ensures { result ≡ regime_answer x.now }
{
    match (regime_named(x), granules::width_named(x[7])) {
        (Some(r), Some(b)) => numbers_of(r, b),
        _ => [0; 8],
    }
}

#[tactic(auto, unfolding(crate::specs::Regimes::numbers_of))]
fn numbers_of(r: Stage2Regime, b: VmidBits) -> [u64; 8]
    ensures { result ≡ numbers_of r b }
{
    let t0sz = r.t0sz();
    let align = r.table_align();
    let value = vtcr::vtcr_el2(r, b);
    [
        1,
        r.valid().into(),
        t0sz.is_some().into(),
        t0sz.unwrap_or(0),
        align.is_some().into(),
        align.unwrap_or(0),
        value.is_some().into(),
        value.unwrap_or(0),
    ]
}

#[tactic(auto, unfolding(crate::specs::Regimes::regime_by_codes))]
fn regime_named(x: &[u64; 8]) -> Option<Stage2Regime>
    ensures { result ≡ regime_by_codes x.now }
{
    Some(Stage2Regime {
        granule: Granule::from_tg0(x[0])?,
        ipa_bits: low(x[1]),
        start_level: StartLevel::from_sl0(x[2])?,
        pa_size: PaSize::from_ps(x[3])?,
        walk_shareability: x[4],
        walk_inner: x[5],
        walk_outer: x[6],
    })
}
