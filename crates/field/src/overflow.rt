// What INCRBY makes of a field's number and an increment.
ghost use Rattle.std.specs.Prelude.{◌≡◌, ◌<◌, true, ◌+ℤ◌};
ghost use Rattle.model.specs.Field.{is_int_type, modulus, meaning};
ghost use Rattle.model.specs.Overflow.{side, saturated, overflow};
ghost use Rattle.outcome.specs.Outcome.{to_model};
ghost use Rattle.command.specs.Subcommand.{model_int, model_mode};
ghost use Rattle.field.specs.Overflow.{model_side};

use crate::int::{greatest, least, mask, number_of};
use command::{IntType, Mode};
use number::Side;

// The exact sum, or the side on which it leaves a type's range. A sum that leaves 64 bits leaves the range on the same side.
fn side_of(int: IntType, old: i64, by: i64) -> Result<i64, Side>
    requires { is_int_type (model_int int) ≡ true }
    ensures { model_side result ≡ side (model_int int) (old +ℤ by) }
{
    let z = number::add(old, by)?;
    if z < least(int) {
        return Err(Side::Under);
    }
    if greatest(int) < z {
        return Err(Side::Over);
    }
    Ok(z)
}

// The nearest number that fits.
fn saturated(int: IntType, old: i64, by: i64) -> i64
    requires { is_int_type (model_int int) ≡ true }
    ensures { result ≡ saturated (model_int int) (side (model_int int) (old +ℤ by)) }
{
    match side_of(int, old, by) {
        Err(Side::Under) => least(int),
        Err(Side::Over) => greatest(int),
        Ok(z) => z,
    }
}

// What INCRBY stores in a field that has these bits, and answers; none where the sum does not fit and the mode is FAIL. The sum that wraps is added
// in 64 bits and reduced to the field's width: the field's bits need no sign, since only low bits are kept.
pub fn increase(int: IntType, mode: Mode, bits: u64, by: i64) -> Option<i64>
    requires { (is_int_type (model_int int) ≡ true) × (bits < modulus (model_int int)) }
    ensures { to_model result ≡ overflow (model_int int) (model_mode mode) (meaning (model_int int) bits +ℤ by) }
{
    match mode {
        Mode::Wrap => {
            let sum = bits.wrapping_add(by.cast_unsigned());
            let mask = mask(int);
            Some(number_of(int, sum & mask))
        }
        Mode::Sat => Some(saturated(int, number_of(int, bits), by)),
        Mode::Fail => side_of(int, number_of(int, bits), by).ok(),
    }
}
