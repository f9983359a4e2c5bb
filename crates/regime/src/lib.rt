// The stage-2 translation regime (hv-s2's arm64.rs): the parameters that a walker reads the tables under.
#![tactic(auto)]

ghost use Rattle.std.specs.Prelude.{◌≡◌};
ghost use Rattle.regime.specs.Regime.{below, input_fits, valid_regime, t0sz_of, table_align};

use granule::{Granule, StartLevel};
use sizes::{PaSize, VmidBits};

#[derive(Clone, Copy, PartialEq, Eq)]
pub struct Stage2Regime {
    pub granule: Granule,
    // The input address size in bits.
    pub ipa_bits: u32,
    pub start_level: StartLevel,
    pub pa_size: PaSize,
    // SH0, IRGN0 and ORGN0: the attributes of the walk's own fetches.
    pub walk_shareability: u64,
    pub walk_inner: u64,
    pub walk_outer: u64,
}

// The regime that is run: 4 KB granule, 39-bit input, start level 1, 40-bit output.
pub const BALEEN_STAGE2: Stage2Regime = Stage2Regime {
    granule: Granule::K4,
    ipa_bits: 39,
    start_level: StartLevel::L1,
    pa_size: PaSize::B40,
    walk_shareability: 0b11,
    walk_inner: 0b01,
    walk_outer: 0b01,
};

pub const BALEEN_VMID_BITS: VmidBits = VmidBits::B8;

impl Stage2Regime {
    // Whether a walker can be configured so.
    #[tactic(auto, unfolding(crate::specs::Regime::valid_regime))]
    pub fn valid(self) -> bool
        ensures { result ≡ valid_regime self }
    {
        self.input_fits()
            && self.walk_shareability <= 0b11
            && self.walk_inner <= 0b11
            && self.walk_outer <= 0b11
    }

    // One table is one page, so the start level resolves the input and the next does not.
    #[tactic(auto, unfolding(crate::specs::Regime::input_fits))]
    fn input_fits(self) -> bool
        ensures { result ≡ input_fits self }
    {
        self.ipa_bits <= 48
            && self.granule.page_bits() < self.ipa_bits
            && self.ipa_bits <= self.start_level.span(self.granule)
            && self.below() < self.ipa_bits
    }

    // Bits of the address that the walk resolves below its start level.
    #[tactic(auto, using(granule::proofs::Bounds::span_range), unfolding(crate::specs::Regime::below))]
    fn below(self) -> u32
        ensures { result ≡ below self }
    {
        self.start_level.span(self.granule) - self.granule.level_bits()
    }

    // The input size, as a shrink from 64 bits.
    pub fn t0sz(self) -> Option<u64>
        ensures { result ≡ t0sz_of self }
    {
        64u64.checked_sub(u64::from(self.ipa_bits))
    }

    // The alignment of the start level's table: an address that lacks it is truncated, not refused.
    #[tactic(auto, using(crate::proofs::Bounds::size_fits))]
    pub fn table_align(self) -> Option<u64>
        ensures { result ≡ table_align self }
    {
        let index_bits = self.ipa_bits.checked_sub(self.below())?;
        if 61 <= index_bits {
            return None;
        }
        Some((8u64 << index_bits).max(64))
    }
}
