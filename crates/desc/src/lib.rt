// AArch64 stage-2 descriptors at a 4 KB granule (hv-s2's arm64.rs): the words that are emitted.
#![tactic(auto)]

ghost use Rattle.std.specs.Prelude.{◌≡◌};
ghost use Rattle.desc.specs.Words.{table_word, page_word, block_word, image_word, device_word, leaf_access_xn};

use perm::Perm;

// The access of a leaf, Ro or Rw, and whether it is execute never.
#[derive(Clone, Copy, PartialEq, Eq)]
pub struct AccessXn {
    pub access: Perm,
    pub xn: bool,
}

pub const TABLE: u64 = 0b11;

pub const PAGE: u64 = 0b11;

pub const BLOCK: u64 = 0b01;

// The access flag: without it the first access faults.
pub const AF: u64 = 1 << 10;

pub const S2AP_RW: u64 = 0b11 << 6;

pub const S2AP_RO: u64 = 0b01 << 6;

// Execute never.
pub const XN: u64 = 1 << 54;

// Normal memory's MemAttr and SH, with the access flag.
pub const LEAF_COMMON: u64 = (0b1111 << 2) | (0b11 << 8) | AF;

// The guest image: read-only and executable.
pub const BLOCK_ROX: u64 = BLOCK | LEAF_COMMON | S2AP_RO;

pub const PAGE_RW: u64 = PAGE | LEAF_COMMON | S2AP_RW | XN;

pub const PAGE_RO: u64 = PAGE | LEAF_COMMON | S2AP_RO | XN;

pub const PAGE_RX: u64 = PAGE | LEAF_COMMON | S2AP_RO;

pub const BLOCK_RW: u64 = BLOCK | LEAF_COMMON | S2AP_RW | XN;

pub const BLOCK_RO: u64 = BLOCK | LEAF_COMMON | S2AP_RO | XN;

// Writable and executable: only in a layout that declares the exemption.
pub const BLOCK_RW_X: u64 = BLOCK | LEAF_COMMON | S2AP_RW;

pub const BLOCK_RX: u64 = BLOCK | LEAF_COMMON | S2AP_RO;

// Device memory's MemAttr and SH are zero.
pub const BLOCK_DEVICE: u64 = BLOCK | AF | S2AP_RW | XN;

// What a leaf of this permission decodes to. The exemption alters only Rw.
pub fn leaf_access_xn(perm: Perm, wx_exempt: bool) -> AccessXn
    ensures { result ≡ leaf_access_xn perm wx_exempt }
{
    match perm {
        Perm::Ro => AccessXn {
            access: Perm::Ro,
            xn: true,
        },
        Perm::Rw => AccessXn {
            access: Perm::Rw,
            xn: !wx_exempt,
        },
        Perm::Rx => AccessXn {
            access: Perm::Ro,
            xn: false,
        },
    }
}

pub fn table_attrs() -> u64
    ensures { result ≡ table_word }
{
    TABLE
}

pub fn page_leaf_attrs(perm: Perm) -> u64
    ensures { result ≡ page_word perm }
{
    match perm {
        Perm::Rw => PAGE_RW,
        Perm::Ro => PAGE_RO,
        Perm::Rx => PAGE_RX,
    }
}

pub fn block_leaf_attrs(perm: Perm, wx_exempt: bool) -> u64
    ensures { result ≡ block_word perm wx_exempt }
{
    match perm {
        Perm::Rw if wx_exempt => BLOCK_RW_X,
        Perm::Rw => BLOCK_RW,
        Perm::Ro => BLOCK_RO,
        Perm::Rx => BLOCK_RX,
    }
}

pub fn image_leaf_attrs() -> u64
    ensures { result ≡ image_word }
{
    BLOCK_ROX
}

pub fn device_leaf_attrs() -> u64
    ensures { result ≡ device_word }
{
    BLOCK_DEVICE
}
