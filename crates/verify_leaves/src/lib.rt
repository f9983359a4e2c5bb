// Verification of tables 4 and 5 (hv-s2's arm64.rs, `verify_encoding`): each leaf is the one that the maps want. Frames that have the
// emitted words are passed over first, since nothing is decoded there.
#![tactic(auto)]

ghost use Rattle.std.specs.Prelude.{◌+◌, ◌*◌, ◌≡◌, [], IsTrue, get_or};
ghost use Rattle.layout.specs.Size.{block};
ghost use Rattle.layout.specs.Window.{l2_slot};
ghost use Rattle.refusal.specs.Outcome.{outcome_of};
ghost use Rattle.refusal.specs.Table.{first};
ghost use Rattle.verify_rows.specs.Verifying.{base_row, super_row, page_rows, super_rows};

use layout::Layout;
use refusal::Refusal;
use verify_word::Word;

// Table 4.
pub fn verify_base(arena: &[u64], base: &[u8], l: Layout) -> Result<(), Refusal>
    ensures { outcome_of result ≡ first (page_rows arena.now base.now l) }
{
    let frames = Frames {
        arena,
        map: base,
        layout: l,
    };
    verify_rows::each_past(
        Layout::ENTRIES as u32,
        |m| frames.has_page(m),
        |m| frames.check_page(m),
    )
}

// Table 5. Supers at or past sup_frames are looked for like the others: row 14 is not tested here.
pub fn verify_super(arena: &[u64], sup: &[u8], l: Layout) -> Result<(), Refusal>
    ensures { outcome_of result ≡ first (super_rows arena.now sup.now l) }
{
    let frames = Frames {
        arena,
        map: sup,
        layout: l,
    };
    verify_rows::each_past(
        Layout::ENTRIES as u32,
        |m| frames.has_block(m),
        |m| frames.check_block(m),
    )
}

// The frames of a map, whose leaves stand in the arena.
#[derive(Clone, Copy)]
struct Frames<'a> {
    arena: &'a [u64],
    map: &'a [u8],
    layout: Layout,
}

impl Frames<'_> {
    // The emitted word is read as what is wanted.
    #[tactic(auto, using(crate::proofs::Emitted::page_none), unfolding(verify_rows::specs::Verifying::base_row))]
    fn has_page(self, m: u32) -> bool
        ensures { let f = self.entry in IsTrue result → base_row f.arena.now f.map.now f.layout.data_pa_base m ≡ [] }
    {
        let emitted = arena::page_word(self.layout.data_pa_base, m, self.entry_at(m));
        verify_read::table_word(self.arena, 4, m) == emitted
    }

    #[tactic(auto, unfolding(verify_rows::specs::Verifying::base_row))]
    fn check_page(self, m: u32) -> Result<(), Refusal>
        ensures { let f = self.entry in outcome_of result ≡ first (base_row f.arena.now f.map.now f.layout.data_pa_base m) }
    {
        let word = Word::at(self.arena, 4, m);
        let pa = arena::page_address(self.layout.data_pa_base, m);
        let want = verify_read::wanted_leaf(self.entry_at(m), pa, false);
        word.leaf(m.into(), verify_read::read_page(word.desc), want)
    }

    #[tactic(auto, using(crate::proofs::Emitted::block_none), unfolding(verify_rows::specs::Verifying::super_row))]
    fn has_block(self, m: u32) -> bool
        ensures { let f = self.entry in let l = f.layout in
            IsTrue result → super_row f.arena.now f.map.now l.sup_ipa_base l.sup_pa_base l.sup_wx_exempt m ≡ [] }
    {
        let l = self.layout;
        let emitted = arena::block_word(l.sup_pa_base, m, l.sup_wx_exempt, self.entry_at(m));
        verify_read::table_word(self.arena, 5, super_index(l.sup_ipa_base, m)) == emitted
    }

    #[tactic(auto, unfolding(verify_rows::specs::Verifying::super_row))]
    fn check_block(self, m: u32) -> Result<(), Refusal>
        ensures { let f = self.entry in let l = f.layout in
            outcome_of result ≡ first (super_row f.arena.now f.map.now l.sup_ipa_base l.sup_pa_base l.sup_wx_exempt m) }
    {
        let l = self.layout;
        let word = Word::at(self.arena, 5, super_index(l.sup_ipa_base, m));
        let pa = arena::block_address(l.sup_pa_base, m);
        let want = verify_read::wanted_leaf(self.entry_at(m), pa, l.sup_wx_exempt);
        word.leaf(m.into(), verify_read::read_block(word.desc), want)
    }

    fn entry_at(self, m: u32) -> u8
        ensures { result ≡ get_or self.entry.map.now m 0 }
    {
        map_entries::entry_at(self.map, m as usize)
    }
}

// A super stands at its own slot, not at its frame number.
fn super_index(ipa: u64, m: u32) -> u32
    ensures { result ≡ l2_slot (ipa + m * block) }
{
    ((ipa / Layout::BLOCK_SIZE + m as u64) % Layout::INDICES) as u32
}
