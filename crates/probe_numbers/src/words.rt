// perm, memtype, desc and decode by numbers.
ghost use Rattle.std.specs.Prelude.{◌≡◌};
ghost use Rattle.probe_numbers.specs.Words.{perm_named, perm_numbers, memory_named, memory_numbers, constant_numbers, word_numbers};
ghost use Rattle.probe_numbers.specs.Words.{leaf_numbers, table_numbers, device_numbers};

use crate::eight;
use decode::{Decoded, DecodedDevice};
use memtype::MemoryType;

// A permission by its code, and the exemption.
pub fn permission(code: u64, wx_exempt: bool) -> [u64; 8]
    ensures { result ≡ perm_numbers (perm_named code) wx_exempt }
{
    let Some(perm) = u8::try_from(code).ok().and_then(perm::entry_named) else {
        return [0; 8];
    };
    let leaf = desc::leaf_access_xn(perm, wx_exempt);
    eight([
        perm.writable().into(),
        perm.executable().into(),
        desc::page_leaf_attrs(perm),
        desc::block_leaf_attrs(perm, wx_exempt),
        leaf.access.code().into(),
        leaf.xn.into(),
    ])
}

fn memory_named(code: u64) -> Option<MemoryType>
    ensures { result ≡ memory_named code }
{
    match code {
        0 => Some(MemoryType::NormalWbIsh),
        1 => Some(MemoryType::NormalNonCacheable),
        2 => Some(MemoryType::DeviceNGnRnE),
        _ => None,
    }
}

pub fn memory_type(code: u64) -> [u64; 8]
    ensures { result ≡ memory_numbers code }
{
    let Some(t) = memory_named(code) else {
        return [0; 8];
    };
    eight([
        1,
        t.stage1_mair_byte().into(),
        t.stage2_leaf_bits(),
        t.shareability_bits(),
    ])
}

pub fn constants() -> [u64; 8]
    ensures { result ≡ constant_numbers }
{
    [
        desc::TABLE,
        desc::PAGE,
        desc::BLOCK,
        desc::AF,
        desc::S2AP_RW,
        desc::S2AP_RO,
        desc::XN,
        desc::LEAF_COMMON,
    ]
}

pub fn words() -> [u64; 8]
    ensures { result ≡ word_numbers }
{
    [
        desc::BLOCK_ROX,
        desc::PAGE_RW,
        desc::PAGE_RO,
        desc::PAGE_RX,
        desc::BLOCK_RW,
        desc::BLOCK_RO,
        desc::BLOCK_RW_X,
        desc::BLOCK_DEVICE,
    ]
}

pub fn leaf(l: Option<Decoded>) -> [u64; 8]
    ensures { result ≡ leaf_numbers l }
{
    let Some(d) = l else {
        return [0; 8];
    };
    eight([1, d.pa, d.perm.code().into(), d.xn.into()])
}

pub fn table(t: Option<u64>) -> [u64; 8]
    ensures { result ≡ table_numbers t }
{
    let Some(pa) = t else {
        return [0; 8];
    };
    eight([1, pa])
}

pub fn device(b: Option<DecodedDevice>) -> [u64; 8]
    ensures { result ≡ device_numbers b }
{
    let Some(d) = b else {
        return [0; 8];
    };
    eight([1, d.pa, d.xn.into()])
}
