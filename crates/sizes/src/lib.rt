// The output size and the width of a VMID, each with its code in VTCR_EL2 (hv-s2's arm64.rs).
#![tactic(auto)]

ghost use Rattle.std.specs.Prelude.{◌≡◌};
ghost use Rattle.sizes.specs.Codes.{ps, size_named, vs, vmid_bits_named, vmids};

// The output address size in bits.
#[derive(Clone, Copy, PartialEq, Eq)]
pub enum PaSize {
    B32,
    B36,
    B40,
    B42,
    B44,
    B48,
    B52,
}

// The width of a VMID. VTCR_EL2 has it and the tables do not, so it is no part of the regime.
#[derive(Clone, Copy, PartialEq, Eq)]
pub enum VmidBits {
    B8,
    B16,
}

impl PaSize {
    pub fn ps(self) -> u64
        ensures { result ≡ ps self }
    {
        match self {
            PaSize::B32 => 0b000,
            PaSize::B36 => 0b001,
            PaSize::B40 => 0b010,
            PaSize::B42 => 0b011,
            PaSize::B44 => 0b100,
            PaSize::B48 => 0b101,
            PaSize::B52 => 0b110,
        }
    }

    pub fn from_ps(v: u64) -> Option<PaSize>
        ensures { result ≡ size_named v }
    {
        match v {
            0b000 => Some(PaSize::B32),
            0b001 => Some(PaSize::B36),
            0b010 => Some(PaSize::B40),
            0b011 => Some(PaSize::B42),
            0b100 => Some(PaSize::B44),
            0b101 => Some(PaSize::B48),
            0b110 => Some(PaSize::B52),
            _ => None,
        }
    }
}

impl VmidBits {
    pub fn vs(self) -> u64
        ensures { result ≡ vs self }
    {
        match self {
            VmidBits::B8 => 0,
            VmidBits::B16 => 1,
        }
    }

    // VS has one bit.
    pub fn from_vs(v: u64) -> VmidBits
        ensures { result ≡ vmid_bits_named v }
    {
        if v == 0 { VmidBits::B8 } else { VmidBits::B16 }
    }

    // How many VMIDs there are.
    pub fn count(self) -> u32
        ensures { result ≡ vmids self }
    {
        match self {
            VmidBits::B8 => 0x100,
            VmidBits::B16 => 0x1_0000,
        }
    }
}
