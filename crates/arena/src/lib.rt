// The words of the arena: descriptors with their address joined (hv-s2's arm64.rs).
#![tactic(auto)]

ghost use Rattle.std.specs.Prelude.{◌+◌, ◌*◌, ◌≡◌};
ghost use Rattle.arena.specs.Word.{table_to, page_to, block_to, image_to, device_to, leaf_for};
ghost use Rattle.desc.specs.Descriptor.{page_address, block_address};
ghost use Rattle.layout.specs.Size.{page, block};

use layout::Layout;

// What names a table.
pub fn table_word(pa: u64) -> u64
    ensures { result ≡ table_to pa }
{
    page_address(pa, 0) + desc::table_attrs()
}

// The leaf of the m-th page from a base on, by its entry in the map. Base pages are never exempt.
pub fn page_word(base: u64, m: u32, entry: u8) -> u64
    ensures { result ≡ leaf_for entry (page_to (base + m * page)) }
{
    match perm::entry_named(entry) {
        Some(perm) => page_address(base, m) + desc::page_leaf_attrs(perm),
        None => 0,
    }
}

// The leaf of the m-th block from a base on, by its entry in the map.
pub fn block_word(base: u64, m: u32, exempt: bool, entry: u8) -> u64
    ensures { result ≡ leaf_for entry (block_to (base + m * block) exempt) }
{
    match perm::entry_named(entry) {
        Some(perm) => block_address(base, m) + desc::block_leaf_attrs(perm, exempt),
        None => 0,
    }
}

pub fn image_word(pa: u64) -> u64
    ensures { result ≡ image_to pa }
{
    block_address(pa, 0) + desc::image_leaf_attrs()
}

// The leaf of the m-th block of a device window.
pub fn device_word(base: u64, m: u32) -> u64
    ensures { result ≡ device_to (base + m * block) }
{
    block_address(base, m) + desc::device_leaf_attrs()
}

// Bits 47:12 of the m-th page's address.
pub fn page_address(base: u64, m: u32) -> u64
    ensures { result ≡ page_address (base + m * page) }
{
    (base / Layout::PAGE_SIZE + m as u64) % 0x10_0000_0000 * Layout::PAGE_SIZE
}

// Bits 47:21 of the m-th block's address.
pub fn block_address(base: u64, m: u32) -> u64
    ensures { result ≡ block_address (base + m * block) }
{
    (base / Layout::BLOCK_SIZE + m as u64) % 0x800_0000 * Layout::BLOCK_SIZE
}
