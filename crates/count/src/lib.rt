// The sum that EXINCRBY stores, or its refusal.
#![tactic(auto)]

ghost use Rattle.std.specs.Prelude.{◌≡◌, ◌+ℤ◌};
ghost use Rattle.std.proofs.Math.Option.{none, some};
ghost use Rattle.outcome.specs.Outcome.{to_model, checked};
ghost use Rattle.model.specs.Execute.{not_below, not_above, floored, sum, total};
ghost use Rattle.command.specs.Command.{model_increment};
ghost use Rattle.number.specs.Answer.{sum_from};

use command::Increment;
use number::Side;
use outcome::Refusal;

// Whether a number is at least MIN.
fn not_below(min: Option<i64>, z: i64) -> bool
    ensures { result ≡ not_below (to_model min) z }
{
    min.is_none_or(|least| least <= z)
}

// Whether a number is at most MAX.
fn not_above(max: Option<i64>, z: i64) -> bool
    ensures { result ≡ not_above (to_model max) z }
{
    max.is_none_or(|most| z <= most)
}

// The number, with NONEGATIVE 0 for one below 0.
fn floor(non_negative: bool, z: i64) -> i64
    ensures { result ≡ floored non_negative z }
{
    if non_negative { z.max(0) } else { z }
}

// The exact sum of two numbers, with NONEGATIVE 0 for one below 0, however far below; or the side on which it leaves 64 bits.
fn add_floored(non_negative: bool, a: i64, b: i64) -> Result<i64, Side>
    ensures { result ≡ sum_from (floored non_negative (a +ℤ b)) }
{
    match number::add(a, b) {
        Ok(z) => Ok(floor(non_negative, z)),
        Err(Side::Under) if non_negative => Ok(0),
        Err(side) => Err(side),
    }
}

// The sum of a stored number and the increment, floored, and after that tested against 64 bits, MIN and MAX.
pub fn sum(increment: Increment, stored: i64) -> Result<i64, Refusal>
    ensures { checked (λ z. z) result ≡ sum (model_increment increment) stored }
{
    let Ok(z) = add_floored(increment.non_negative, stored, increment.by) else {
        return Err(Refusal::Overflow);
    };
    if !not_below(increment.min, z) {
        return Err(Refusal::Overflow);
    }
    if !not_above(increment.max, z) {
        return Err(Refusal::Overflow);
    }
    Ok(z)
}

// The sum where the key is absent: it counts from 0.
#[tactic(auto, unfolding(model::specs::Execute::total))]
pub fn sum_absent(increment: Increment) -> Result<i64, Refusal>
    ensures { checked (λ z. z) result ≡ total (model_increment increment) none }
{
    sum(increment, 0)
}

// The sum of the number that a stored text means and the increment.
#[tactic(auto, unfolding(model::specs::Execute::total))]
pub fn sum_text(increment: Increment, text: &[u8]) -> Result<i64, Refusal>
    ensures { checked (λ z. z) result ≡ total (model_increment increment) (some text.now) }
{
    let Some(stored) = number::read_signed(text) else {
        return Err(Refusal::Stored);
    };
    sum(increment, stored)
}
