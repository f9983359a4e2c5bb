// The arena and the six addresses, kept together. These functions are thin: the walk itself is `walk`'s.
#![tactic(auto)]

ghost use Rattle.std.specs.Prelude.{◌≡◌};
ghost use Rattle.refusal.specs.Told.{told_of};
ghost use Rattle.walk.specs.Walk.{walked_from};

use layout::Layout;
use reach::Reach;
use refusal::Refusal;

// The 3,072 words, and the addresses of the six tables in the arena's order. Each has a lifetime of its own.
#[derive(Clone, Copy)]
pub struct Walker<'a, 'b> {
    pub words: &'a [u64],
    pub tables: &'b [u64; Layout::TABLES],
}

impl<'a, 'b> Walker<'a, 'b> {
    pub fn new(words: &'a [u64], tables: &'b [u64; Layout::TABLES]) -> Walker<'a, 'b>
        ensures { (result.words ≡ words.entry) × (result.tables ≡ tables.entry) }
    {
        Walker { words, tables }
    }

    // Row 1 alone.
    pub fn walk(self, ipa: u64) -> Result<Option<Reach>, Refusal>
        ensures { told_of result ≡ walked_from self.entry.words.now self.entry.tables.now ipa }
    {
        walk::walk(self.words, self.tables, ipa)
    }
}

// A walker for one address, with plain parameters.
pub fn walk(
    words: &[u64],
    tables: &[u64; Layout::TABLES],
    ipa: u64,
) -> Result<Option<Reach>, Refusal>
    ensures { told_of result ≡ walked_from words.now tables.now ipa }
{
    Walker::new(words, tables).walk(ipa)
}
