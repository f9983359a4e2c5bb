// Verification of a device's table (hv-s2's arm64.rs, `verify_encoding`): each block is the one that its window wants.
#![tactic(auto)]

ghost use Rattle.std.specs.Prelude.{◌*◌, ◌/◌, ◌≡◌, [], IsTrue};
ghost use Rattle.layout.specs.Size.{l1_span};
ghost use Rattle.refusal.specs.Outcome.{outcome_of};
ghost use Rattle.refusal.specs.Table.{first};
ghost use Rattle.verify_rows.specs.Verifying.{slot_address, window_holds, device_row, device_rows};

use decode::DecodedDevice;
use layout::{Layout, Window};
use refusal::Refusal;
use verify_word::Word;

// The table of a device. Slots that have the emitted words are passed over first, since nothing is decoded there.
pub fn verify_device(arena: &[u64], table: u32, w: Window) -> Result<(), Refusal>
    ensures { outcome_of result ≡ first (device_rows arena.now table w) }
{
    let slots = Slots {
        arena,
        table,
        window: w,
    };
    verify_rows::each_past(
        Layout::ENTRIES as u32,
        |j| slots.has_block(j),
        |j| slots.check(j),
    )
}

// A device's table in the arena, and the window that it maps.
#[derive(Clone, Copy)]
struct Slots<'a> {
    arena: &'a [u64],
    table: u32,
    window: Window,
}

impl Slots<'_> {
    // The emitted word is read as what is wanted.
    #[tactic(auto, using(crate::proofs::Emitted::device_none), unfolding(verify_rows::specs::Verifying::device_row))]
    fn has_block(self, j: u32) -> bool
        ensures { let s = self.entry in IsTrue result → device_row s.arena.now s.table s.window j ≡ [] }
    {
        let emitted = if is_mapped(self.window, j) {
            arena::device_word(first_address(self.window), j)
        } else {
            0
        };
        verify_read::table_word(self.arena, self.table, j) == emitted
    }

    #[tactic(auto, unfolding(verify_rows::specs::Verifying::device_row))]
    fn check(self, j: u32) -> Result<(), Refusal>
        ensures { let s = self.entry in outcome_of result ≡ first (device_row s.arena.now s.table s.window j) }
    {
        let block = DecodedDevice {
            pa: arena::block_address(first_address(self.window), j),
            xn: true,
        };
        Word::at(self.arena, self.table, j).device_block(is_mapped(self.window, j).then_some(block))
    }
}

// Whether a window contains the address that slot j of its table covers. Both are counted from the table's first address, since one past it can
// leave 64 bits.
#[tactic(auto, using(std::proofs::lemmas::Bool::Decides::nat_tests))]
fn is_mapped(w: Window, j: u32) -> bool
    ensures { result ≡ window_holds w (slot_address w j) }
{
    let from = w.ipa % Layout::L1_ENTRY_SIZE;
    let slot = j as u64 * Layout::BLOCK_SIZE;
    from <= slot && slot - from < w.span
}

// The address that slot 0 covers.
fn first_address(w: Window) -> u64
    ensures { result ≡ w.ipa / l1_span * l1_span }
{
    w.ipa / Layout::L1_ENTRY_SIZE * Layout::L1_ENTRY_SIZE
}
