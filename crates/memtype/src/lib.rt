// What a region of memory is, named once and encoded for both stages (hv-s2's arm64.rs).
#![tactic(auto)]

ghost use Rattle.std.specs.Prelude.{◌≡◌};
ghost use Rattle.memtype.specs.Memory.{mair_byte, leaf_bits, shareability_bits};

#[derive(Clone, Copy, PartialEq, Eq)]
pub enum MemoryType {
    // Normal, write-back, inner shareable.
    NormalWbIsh,
    // Normal, non-cacheable.
    NormalNonCacheable,
    DeviceNGnRnE,
}

impl MemoryType {
    // The attribute byte of MAIR_ELx.
    pub fn stage1_mair_byte(self) -> u8
        ensures { result ≡ mair_byte self }
    {
        match self {
            Self::NormalWbIsh => 0xff,
            Self::NormalNonCacheable => 0x44,
            Self::DeviceNGnRnE => 0x00,
        }
    }

    // MemAttr and SH of a stage-2 leaf. The access flag is no part of a memory type.
    pub fn stage2_leaf_bits(self) -> u64
        ensures { result ≡ leaf_bits self }
    {
        let mem_attr: u64 = match self {
            Self::NormalWbIsh => 0b1111,
            Self::NormalNonCacheable => 0b0101,
            Self::DeviceNGnRnE => 0b0000,
        };
        (mem_attr << 2) | self.shareability_bits()
    }

    // SH, at the same bits in both stages.
    pub fn shareability_bits(self) -> u64
        ensures { result ≡ shareability_bits self }
    {
        match self {
            Self::NormalWbIsh => 0b11 << 8,
            Self::NormalNonCacheable | Self::DeviceNGnRnE => 0b00 << 8,
        }
    }
}
