// The numbers of a type in 64 bits, and their bits.
ghost use Rattle.std.specs.Prelude.{◌≡◌, ◌-◌, ◌<◌, true};
ghost use Rattle.model.specs.Field.{is_int_type, modulus, least, greatest, fits, modulo, meaning};
ghost use Rattle.command.specs.Subcommand.{model_int};

use command::IntType;

// As many ones as a type has bits.
pub fn mask(int: IntType) -> u64
    requires { is_int_type (model_int int) ≡ true }
    ensures { result ≡ modulus (model_int int) - 1 }
{
    u64::MAX >> (64 - int.width)
}

// The greatest number of a type.
pub fn greatest(int: IntType) -> i64
    requires { is_int_type (model_int int) ≡ true }
    ensures { result ≡ greatest (model_int int) }
{
    let mask = mask(int);
    if int.signed {
        return (mask >> 1) as i64;
    }
    mask as i64
}

// The least number of a type.
pub fn least(int: IntType) -> i64
    requires { is_int_type (model_int int) ≡ true }
    ensures { result ≡ least (model_int int) }
{
    if int.signed {
        return -greatest(int) - 1;
    }
    0
}

// Whether a number fits a type.
pub fn fits(int: IntType, z: i64) -> bool
    requires { is_int_type (model_int int) ≡ true }
    ensures { result ≡ fits (model_int int) z }
{
    (least(int) <= z) & (z <= greatest(int))
}

// The number that bits mean in a field. A signed type's upper half counts from its least number.
pub fn number_of(int: IntType, bits: u64) -> i64
    requires { (is_int_type (model_int int) ≡ true) × (bits < modulus (model_int int)) }
    ensures { result ≡ meaning (model_int int) bits }
{
    if int.signed {
        let half = 1 << (int.width - 1);
        if half <= bits {
            return (bits - half) as i64 + least(int);
        }
    }
    bits as i64
}

// The bits of a number in a field.
pub fn bits_of(int: IntType, z: i64) -> u64
    requires { is_int_type (model_int int) ≡ true }
    ensures { result ≡ modulo z (modulus (model_int int)) }
{
    z.cast_unsigned() & mask(int)
}
