// VTCR_EL2 (hv-s2's arm64.rs): the regime as the CPU is given it.
#![tactic(auto)]

ghost use Rattle.std.specs.Prelude.{◌<◌, ◌≡◌};
ghost use Rattle.vtcr.specs.Fields.{vtcr_fields_of, vtcr_joined};
ghost use Rattle.vtcr.specs.Vtcr.{regime_named, vtcr_of, decoded_vtcr};

use granule::{Granule, StartLevel};
use regime::Stage2Regime;
use sizes::{PaSize, VmidBits};

// The VTCR_EL2 value of a regime: DS, HA and HD stay clear.
#[tactic(auto, using(crate::proofs::Valid::wide))]
pub fn vtcr_el2(regime: Stage2Regime, vmid_bits: VmidBits) -> Option<u64>
    ensures { result ≡ vtcr_of regime vmid_bits }
{
    if !regime.valid() {
        return None;
    }
    let fields = VtcrFields {
        t0sz: 64 - u64::from(regime.ipa_bits),
        sl0: regime.start_level.sl0(),
        irgn0: regime.walk_inner,
        orgn0: regime.walk_outer,
        sh0: regime.walk_shareability,
        tg0: regime.granule.tg0(),
        ps: regime.pa_size.ps(),
        vs: vmid_bits.vs(),
        res1: 1,
        ds: 0,
    };
    Some(fields.into())
}

// The value that the board is given.
#[tactic(auto, using(crate::proofs::RoundTrip::baleen_value))]
pub fn baleen_vtcr_el2() -> Option<u64>
    ensures { result ≡ Some 0x8002_3559 }
{
    vtcr_el2(regime::BALEEN_STAGE2, regime::BALEEN_VMID_BITS)
}

// The regime that a VTCR_EL2 value names. Bits that are neither RES1 nor DS nor a field are not read.
pub fn decode_vtcr_el2(v: u64) -> Option<(Stage2Regime, VmidBits)>
    ensures { result ≡ decoded_vtcr v }
{
    let fields = VtcrFields::from(v);
    if fields.res1 != 1 || fields.ds != 0 {
        return None;
    }
    regime_named(fields)
}

// The regime that the fields name, if none is reserved and it is valid.
#[tactic(auto, unfolding(crate::specs::Vtcr::regime_named))]
fn regime_named(fields: VtcrFields) -> Option<(Stage2Regime, VmidBits)>
    requires { fields.t0sz < 64 }
    ensures { result ≡ regime_named fields }
{
    let regime = Stage2Regime {
        granule: Granule::from_tg0(fields.tg0)?,
        ipa_bits: 64 - fields.t0sz as u32,
        start_level: StartLevel::from_sl0(fields.sl0)?,
        pa_size: PaSize::from_ps(fields.ps)?,
        walk_shareability: fields.sh0,
        walk_inner: fields.irgn0,
        walk_outer: fields.orgn0,
    };
    regime
        .valid()
        .then_some((regime, VmidBits::from_vs(fields.vs)))
}

// The fields of VTCR_EL2: a value taken apart and put together.
#[derive(Clone, Copy, PartialEq, Eq)]
pub struct VtcrFields {
    pub t0sz: u64,
    pub sl0: u64,
    pub irgn0: u64,
    pub orgn0: u64,
    pub sh0: u64,
    pub tg0: u64,
    pub ps: u64,
    pub vs: u64,
    pub res1: u64,
    pub ds: u64,
}

impl From<u64> for VtcrFields {
    ghost from_gives = { λ v f. f ≡ vtcr_fields_of v };

    fn from(v: u64) -> VtcrFields {
        VtcrFields {
            t0sz: v % 0x40,
            sl0: v / 0x40 % 4,
            irgn0: v / 0x100 % 4,
            orgn0: v / 0x400 % 4,
            sh0: v / 0x1000 % 4,
            tg0: v / 0x4000 % 4,
            ps: v / 0x1_0000 % 8,
            vs: v / 0x8_0000 % 2,
            res1: v / 0x8000_0000 % 2,
            ds: v / 0x1_0000_0000 % 2,
        }
    }
}

impl From<VtcrFields> for u64 {
    ghost from_gives = { λ f v. v ≡ vtcr_joined f };

    // A field that is too large for its place is cut to it.
    fn from(f: VtcrFields) -> u64 {
        f.t0sz % 0x40
            + f.sl0 % 4 * 0x40
            + f.irgn0 % 4 * 0x100
            + f.orgn0 % 4 * 0x400
            + f.sh0 % 4 * 0x1000
            + f.tg0 % 4 * 0x4000
            + f.ps % 8 * 0x1_0000
            + f.vs % 2 * 0x8_0000
            + f.res1 % 2 * 0x8000_0000
            + f.ds % 2 * 0x1_0000_0000
    }
}
