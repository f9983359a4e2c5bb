// The first refusal of a list: of its elements in order, of its elements by their positions, and of its pairs.
ghost use Rattle.std.specs.Prelude.{ℕ, List, ◌≡◌};
ghost use Rattle.refusal.specs.Outcome.{outcome_of};
ghost use Rattle.refusal.specs.Table.{Row, first, each, each_from, pairs};

use crate::Refusal;

// Each element is checked until one is refused.
pub fn each<T: Copy, F: Fn(T) -> Result<(), Refusal>>(xs: &[T], check: F) -> Result<(), Refusal>
    requires { F.IsAlwaysCallable check }
    ensures { (rows : T → List Row)
        → ((x : T) (r : _) → F.post check x r → outcome_of r ≡ first (rows x))
        → outcome_of result ≡ first (each rows xs.now) }
{
    for x in xs {
        check(*x)?;
    }
    Ok(())
}

// Each element with its position.
pub fn each_from<T: Copy, F: Fn(usize, T) -> Result<(), Refusal>>(
    xs: &[T],
    check: F,
) -> Result<(), Refusal>
    requires { F.IsAlwaysCallable check }
    ensures { (rows : ℕ → T → List Row)
        → ((i : ℕ) (x : T) (r : _) → F.post check i x r → outcome_of r ≡ first (rows i x))
        → outcome_of result ≡ first (each_from rows 0 xs.now) }
{
    for (i, x) in xs.iter().enumerate() {
        check(i, *x)?;
    }
    Ok(())
}

// Each element with each that comes after it.
pub fn pairs<T: Copy, F: Fn(T, T) -> Result<(), Refusal>>(xs: &[T], check: F) -> Result<(), Refusal>
    requires { F.IsAlwaysCallable check }
    ensures { (rows : T → T → List Row)
        → ((x : T) (y : T) (r : _) → F.post check x y r → outcome_of r ≡ first (rows x y))
        → outcome_of result ≡ first (pairs rows xs.now) }
{
    let mut rest = xs;
    while let Some((x, later)) = rest.split_first() {
        each(later, |y| check(*x, y))?;
        rest = later;
    }
    Ok(())
}
