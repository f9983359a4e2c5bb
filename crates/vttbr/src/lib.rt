// VTTBR_EL2 (hv-s2's arm64.rs): the table set as the CPU is given it.
#![tactic(auto)]

ghost use Rattle.std.specs.Prelude.{◌≡◌};
ghost use Rattle.vttbr.specs.Vttbr.{vttbr_of, baddr, vmid_of};

use sizes::VmidBits;

// The VTTBR_EL2 value for a table set: the level 1 table's address with the VMID above it.
pub fn vttbr(l1_pa: u64, vmid: u64) -> u64
    ensures { result ≡ vttbr_of l1_pa vmid }
{
    l1_pa | (vmid << 48)
}

// The table that a VTTBR_EL2 value names.
pub fn vttbr_table(vttbr: u64) -> u64
    ensures { result ≡ baddr vttbr }
{
    vttbr % 0x1_0000_0000_0000
}

// The VMID that the regime tags with.
pub fn vttbr_vmid(vttbr: u64, bits: VmidBits) -> u16
    ensures { result ≡ vmid_of vttbr bits }
{
    (vttbr / 0x1_0000_0000_0000 % u64::from(bits.count())) as u16
}
