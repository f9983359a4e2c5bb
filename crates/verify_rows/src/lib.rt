// What verification refuses, row by row: definitions, and the loop over their numbers.
#![tactic(auto)]

ghost use Rattle.std.specs.Prelude.{ℕ, List, [], true, ◌-◌, ◌≤◌, ◌<◌, ◌≡◌};
ghost use Rattle.refusal.specs.Outcome.{outcome_of};
ghost use Rattle.refusal.specs.Table.{Row, first, each};
ghost use Rattle.verify_rows.specs.Verifying.{range};

use refusal::Refusal;

// Each number from one on, below another, is checked until one is refused: of an area, of a word of a table, of a frame.
pub fn each_between<F: Fn(u32) -> Result<(), Refusal>>(
    from: u32,
    end: u32,
    check: F,
) -> Result<(), Refusal>
    requires { (j : ℕ) → j < end → F.pre check j }
    ensures { (rows : ℕ → List Row)
        → ((j : ℕ) (r : _) → j < end → F.post check j r → outcome_of r ≡ first (rows j))
        → outcome_of result ≡ first (each rows (range from (end - from))) }
{
    for j in from..end {
        check(j)?;
    }
    Ok(())
}

// Each number below a count is checked, but for those, from 0 on, that a quicker test lets by.
pub fn each_past<P: Fn(u32) -> bool, F: Fn(u32) -> Result<(), Refusal>>(
    count: u32,
    passes: P,
    check: F,
) -> Result<(), Refusal>
    requires passes { (j : ℕ) → j < count → P.pre passes j }
    requires checks { (j : ℕ) → j < count → F.pre check j }
    ensures { (rows : ℕ → List Row)
        → ((j : ℕ) → j < count → P.post passes j true → rows j ≡ [])
        → ((j : ℕ) (r : _) → j < count → F.post check j r → outcome_of r ≡ first (rows j))
        → outcome_of result ≡ first (each rows (range 0 count)) }
{
    for j in 0..count {
        if !passes(j) {
            return each_between(j, count, check);
        }
    }
    Ok(())
}
