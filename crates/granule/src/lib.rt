// The translation granule and the start level (hv-s2's arm64.rs): how many bits of an address a walk resolves, and the code of each
// in VTCR_EL2.
#![tactic(auto)]

ghost use Rattle.std.specs.Prelude.{◌≡◌};
ghost use Rattle.granule.specs.Granule.{page_bits, level_bits, tg0, granule_named};
ghost use Rattle.granule.specs.StartLevel.{number, sl0, level_named, span};

// The translation granule: the size of a page.
#[derive(Clone, Copy, PartialEq, Eq)]
pub enum Granule {
    K4,
    K16,
    K64,
}

// The level that the walk starts at. Level 3 holds the pages.
#[derive(Clone, Copy, PartialEq, Eq)]
pub enum StartLevel {
    L0,
    L1,
    L2,
    L3,
}

impl Granule {
    // Bits of the address that are the offset in a page.
    pub fn page_bits(self) -> u32
        ensures { result ≡ page_bits self }
    {
        match self {
            Granule::K4 => 12,
            Granule::K16 => 14,
            Granule::K64 => 16,
        }
    }

    // Bits of the address that one level resolves: a table is a page of 8-byte words.
    pub fn level_bits(self) -> u32
        ensures { result ≡ level_bits self }
    {
        self.page_bits() - 3
    }

    pub fn tg0(self) -> u64
        ensures { result ≡ tg0 self }
    {
        match self {
            Granule::K4 => 0b00,
            Granule::K64 => 0b01,
            Granule::K16 => 0b10,
        }
    }

    pub fn from_tg0(v: u64) -> Option<Granule>
        ensures { result ≡ granule_named v }
    {
        match v {
            0b00 => Some(Granule::K4),
            0b01 => Some(Granule::K64),
            0b10 => Some(Granule::K16),
            _ => None,
        }
    }
}

impl StartLevel {
    pub fn number(self) -> u32
        ensures { result ≡ number self }
    {
        match self {
            StartLevel::L0 => 0,
            StartLevel::L1 => 1,
            StartLevel::L2 => 2,
            StartLevel::L3 => 3,
        }
    }

    pub fn sl0(self) -> u64
        ensures { result ≡ sl0 self }
    {
        match self {
            StartLevel::L2 => 0b00,
            StartLevel::L1 => 0b01,
            StartLevel::L0 => 0b10,
            StartLevel::L3 => 0b11,
        }
    }

    pub fn from_sl0(v: u64) -> Option<StartLevel>
        ensures { result ≡ level_named v }
    {
        match v {
            0b00 => Some(StartLevel::L2),
            0b01 => Some(StartLevel::L1),
            0b10 => Some(StartLevel::L0),
            0b11 => Some(StartLevel::L3),
            _ => None,
        }
    }

    // Bits of the address that a walk from this level resolves.
    #[tactic(auto, unfolding(crate::specs::StartLevel::span))]
    pub fn span(self, granule: Granule) -> u32
        ensures { result ≡ span self granule }
    {
        granule.page_bits() + (4 - self.number()) * granule.level_bits()
    }
}
