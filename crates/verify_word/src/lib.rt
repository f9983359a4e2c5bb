// Rows 18 to 22 of document 01's table, of one word: what its decoder finds there, against what is wanted (hv-s2's arm64.rs).
#![tactic(auto)]

ghost use Rattle.std.specs.Prelude.{◌≡◌};
ghost use Rattle.refusal.specs.Outcome.{outcome_of};
ghost use Rattle.refusal.specs.Table.{first};
ghost use Rattle.refusal.specs.declared.Refusal.TheVariants.{SpuriousDescriptor};
ghost use Rattle.verify_rows.specs.Verifying.{word};
ghost use Rattle.verify_rows.specs.Word.{row18, row19, leaf_row, block_row};

use decode::{Decoded, DecodedDevice};
use perm::Perm;
use refusal::Refusal;

// A word of the arena, and where it stands.
#[derive(Clone, Copy)]
pub struct Word {
    pub table: u64,
    pub index: u64,
    pub desc: u64,
}

impl Word {
    pub fn at(arena: &[u64], table: u32, index: u32) -> Self
        ensures { result ≡ record { table = table; index = index; desc = word arena.now table index } }
    {
        Word {
            table: table.into(),
            index: index.into(),
            desc: verify_read::table_word(arena, table, index),
        }
    }

    // Row 18.
    #[tactic(auto, unfolding(verify_rows::specs::Word::row18, refusal::specs::Table::first))]
    pub fn table_entry(self, pa: u64) -> Result<(), Refusal>
        ensures { outcome_of result ≡ first (row18 self.table self.index self.desc pa) }
    {
        let expected = arena::page_address(pa, 0);
        let found = decode::decode_table(self.desc);
        if found == Some(expected) {
            return Ok(());
        }
        Err(Refusal::BadTableEntry {
            table: self.table,
            index: self.index,
            found,
            expected,
        })
    }

    // Row 19. The image is the guest's code: it reads and executes, and nothing writes it.
    #[tactic(auto, unfolding(verify_rows::specs::Word::row19, refusal::specs::Table::first))]
    pub fn image_block(self, pa: u64) -> Result<(), Refusal>
        ensures { outcome_of result ≡ first (row19 self.desc pa) }
    {
        let expected = arena::block_address(pa, 0);
        let found = verify_read::read_block(self.desc);
        let want = Decoded {
            pa: expected,
            perm: Perm::Ro,
            xn: false,
        };
        if verify_read::same_leaf(found, Some(want)) {
            return Ok(());
        }
        Err(Refusal::BadImageBlock { found, expected })
    }

    // Row 20 of the frame, or 21 where nothing is wanted.
    #[tactic(auto, unfolding(verify_rows::specs::Word::leaf_row, refusal::specs::Table::first))]
    pub fn leaf(
        self,
        mfn: u64,
        found: Option<Decoded>,
        want: Option<Decoded>,
    ) -> Result<(), Refusal>
        ensures { outcome_of result ≡ first (leaf_row self.table self.index self.desc mfn found want) }
    {
        if verify_read::same_leaf(found, want) {
            return Ok(());
        }
        match want {
            Some(_) => Err(Refusal::BadLeaf {
                mfn,
                found,
                expected: want,
            }),
            None => Err(self.spurious()),
        }
    }

    // Row 22, or 21 where nothing is wanted.
    #[tactic(auto, unfolding(verify_rows::specs::Word::block_row, refusal::specs::Table::first))]
    pub fn device_block(self, want: Option<DecodedDevice>) -> Result<(), Refusal>
        ensures { outcome_of result ≡ first (block_row self.table self.index self.desc want) }
    {
        if decode::decode_device_block(self.desc) == want {
            return Ok(());
        }
        match want {
            Some(_) => Err(Refusal::BadDeviceBlock {
                index: self.index,
                desc: self.desc,
            }),
            None => Err(self.spurious()),
        }
    }

    // Row 21.
    pub fn spurious(self) -> Refusal
        ensures { result ≡ SpuriousDescriptor self.table self.index self.desc }
    {
        Refusal::SpuriousDescriptor {
            table: self.table,
            index: self.index,
            desc: self.desc,
        }
    }
}
