// What the functions of the lower layers answer, as eight numbers: for the comparison with the Rust alone.
#![tactic(auto)]

ghost use Rattle.std.specs.Prelude.{◌≡◌, take};
ghost use Rattle.fields.specs.Numbers.{eight, low};

pub mod frames;
pub mod granules;
pub mod levels;
pub mod regimes;
pub mod registers;
pub mod words;

// The numbers given, and zeros up to eight; a ninth is cut.
pub fn eight<const N: usize>(numbers: [u64; N]) -> [u64; 8]
    ensures { result ≡ eight (take 8 numbers.entry) }
{
    let len = N.min(8);
    let mut all = [0; 8];
    all[..len].copy_from_slice(&numbers[..len]);
    all
}

// A 32-bit number.
pub fn low(n: u64) -> u32
    ensures { result ≡ low n }
{
    (n % 0x1_0000_0000) as u32
}
