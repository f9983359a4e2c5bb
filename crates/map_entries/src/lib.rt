// The entries of a lent map: one of them, and the largest.
#![tactic(auto)]

ghost use Rattle.std.specs.Prelude.{◌≡◌, get_or};
ghost use Rattle.map_entries.specs.Larger.{largest};

// The entry of a frame, 0 past the map.
pub fn entry_at(map: &[u8], m: usize) -> u8
    ensures { result ≡ get_or map.now m 0 }
{
    map.get(m).copied().unwrap_or(0)
}

// The largest byte of a map, 0 where it has none.
#[tactic(auto, unfolding(crate::specs::Larger::largest))]
pub fn largest(map: &[u8]) -> u8
    ensures { result ≡ largest map.now }
{
    map.iter().fold(0, |most, b| most.max(*b))
}
