// The decoders of stage-2 descriptors (hv-s2's arm64.rs): what any word means.
#![tactic(auto)]

ghost use Rattle.std.specs.Prelude.{◌≡◌};
ghost use Rattle.desc.specs.Descriptor.{page_address, block_address, execute_never};
ghost use Rattle.decode.specs.Decoded.{access_of, leaf_at, decoded_page, decoded_block, decoded_table, decoded_device};

use perm::Perm;

// What a page or block descriptor means.
#[derive(Clone, Copy, PartialEq, Eq)]
pub struct Decoded {
    pub pa: u64,
    pub perm: Perm,
    pub xn: bool,
}

// What a device block descriptor means.
#[derive(Clone, Copy, PartialEq, Eq)]
pub struct DecodedDevice {
    pub pa: u64,
    pub xn: bool,
}

// A level 3 page.
pub fn decode_page(d: u64) -> Option<Decoded>
    ensures { result ≡ decoded_page d }
{
    if d % 4 != desc::PAGE {
        return None;
    }
    leaf_at(page_address(d), d)
}

// A level 2 block.
pub fn decode_block(d: u64) -> Option<Decoded>
    ensures { result ≡ decoded_block d }
{
    if d % 4 != desc::BLOCK {
        return None;
    }
    leaf_at(block_address(d), d)
}

// The table that a level 1 or level 2 word names.
pub fn decode_table(d: u64) -> Option<u64>
    ensures { result ≡ decoded_table d }
{
    if d % 4 != desc::TABLE {
        return None;
    }
    Some(page_address(d))
}

// A block whose MemAttr is Device-nGnRnE: a Normal block is none.
pub fn decode_device_block(d: u64) -> Option<DecodedDevice>
    ensures { result ≡ decoded_device d }
{
    if d % 4 != desc::BLOCK {
        return None;
    }
    if d / 4 % 16 != 0 {
        return None;
    }
    Some(DecodedDevice {
        pa: block_address(d),
        xn: execute_never(d),
    })
}

// The leaf that a word of the right type is, if it has an access.
fn leaf_at(pa: u64, d: u64) -> Option<Decoded>
    ensures { result ≡ leaf_at pa d }
{
    let Some(perm) = decode_perm(d) else {
        return None;
    };
    Some(Decoded {
        pa,
        perm,
        xn: execute_never(d),
    })
}

// S2AP: 11 and 01. 00 and 10 give no access here.
fn decode_perm(d: u64) -> Option<Perm>
    ensures { result ≡ access_of d }
{
    match d / 64 % 4 {
        0b11 => Some(Perm::Rw),
        0b01 => Some(Perm::Ro),
        _ => None,
    }
}

// Bits 47:12, in place.
fn page_address(d: u64) -> u64
    ensures { result ≡ page_address d }
{
    d / 0x1000 % 0x10_0000_0000 * 0x1000
}

// Bits 47:21, in place.
fn block_address(d: u64) -> u64
    ensures { result ≡ block_address d }
{
    d / 0x20_0000 % 0x800_0000 * 0x20_0000
}

// Bit 54.
fn execute_never(d: u64) -> bool
    ensures { result ≡ execute_never d }
{
    d / 0x40_0000_0000_0000 % 2 == 1
}
