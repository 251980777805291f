// The words of a subcommand: its type, its offset and its number.
ghost use Rattle.std.specs.Prelude.{◌≡◌};
ghost use Rattle.std.proofs.Math.Option.{some};
ghost use Rattle.model.specs.Optional.{only};
ghost use Rattle.model.specs.Checked.{given};
ghost use Rattle.model.specs.Number.{read_nat};
ghost use Rattle.model.specs.Field.{is_int_type};
ghost use Rattle.model.specs.Subcommands.{sign_in, type_in, offset_in, field_in};
ghost use Rattle.outcome.specs.Outcome.{from_model, checked};
ghost use Rattle.command.specs.Subcommand.{model_int, model_field};
ghost use Rattle.subcommands.specs.Words.{width_from, only_digit, type_of, model_only, sub_by};

use command::{Field, IntType, Operation, Sub};
use outcome::Refusal;

// One more than the greatest offset in a word.
const OFFSET_LIMIT: u64 = 4294967296;

// Whether the letter of a type says a signed one.
fn sign_in(letter: u8) -> Option<bool>
    ensures { result ≡ from_model (sign_in letter) }
{
    match letter {
        b'i' => Some(true),
        b'u' => Some(false),
        _ => None,
    }
}

// The width that stands after a type's letter, if it has at most two digits; no type has one of more.
fn width_in(digits: &[u8]) -> Option<usize>
    ensures { result ≡ width_from (read_nat digits.now) }
{
    let first = resp::digit_at(digits, 0)?;
    if digits.len() == 1 {
        return Some(first);
    }
    let second = resp::digit_at(digits, 1)?;
    if digits.len() != 2 {
        return None;
    }
    if first == 0 {
        return None;
    }
    Some(10 * first + second)
}

// The type of a sign and a width, if there is one: i1 to i64 and u1 to u63.
fn type_of(signed: bool, width: usize) -> Result<IntType, Refusal>
    ensures { checked model_int result ≡ given 9 (only is_int_type (some (type_of signed width))) }
{
    let most = if signed { 64 } else { 63 };
    if width < 1 {
        return Err(Refusal::Number);
    }
    if most < width {
        return Err(Refusal::Number);
    }
    Ok(IntType {
        signed,
        width: width as u8,
    })
}

// The type that a word says.
fn type_in(w: &[u8]) -> Result<IntType, Refusal>
    ensures { checked model_int result ≡ given 9 (type_in w.now) }
{
    let [letter, digits @ ..] = w else {
        return Err(Refusal::Number);
    };
    let Some(signed) = sign_in(*letter) else {
        return Err(Refusal::Number);
    };
    let Some(width) = width_in(digits) else {
        return Err(Refusal::Number);
    };
    type_of(signed, width)
}

// The digit that is the whole word.
fn only_digit(w: &[u8]) -> Option<usize>
    ensures { result ≡ only_digit w.now }
{
    if w.len() == 1 {
        return resp::digit_at(w, 0);
    }
    None
}

// The first bit that a word says. After # it counts in fields of the type. One digit alone, as most offsets are, is not read as a number word.
fn offset_in(int: IntType, w: &[u8]) -> Result<u64, Refusal>
    ensures { checked (λ n. n) result ≡ given 9 (offset_in (model_int int) w.now) }
{
    if let Some(digit) = only_digit(w) {
        return Ok(digit as u64);
    }
    let [first, fields @ ..] = w else {
        return Err(Refusal::Number);
    };
    if *first == b'#' {
        let Some(n) = number::read_below(fields, OFFSET_LIMIT) else {
            return Err(Refusal::Number);
        };
        return Ok(u64::from(int.width) * n);
    }
    let Some(n) = number::read_below(w, OFFSET_LIMIT) else {
        return Err(Refusal::Number);
    };
    Ok(n)
}

// The field that the words of a type and an offset say.
fn field_in(int: &[u8], offset: &[u8]) -> Result<Field, Refusal>
    ensures { checked model_field result ≡ given 9 (field_in int.now offset.now) }
{
    let int = type_in(int)?;
    let offset = offset_in(int, offset)?;
    Ok(Field { int, offset })
}

// The subcommand that the words of a type, an offset and a number say. GET has no number, and looks at none; that of SET must fit the field.
pub fn sub_in(
    operation: Operation,
    int: &[u8],
    offset: &[u8],
    number: &[u8],
) -> Result<Sub, Refusal>
    ensures { checked model_only result ≡ given 9 (sub_by operation int.now offset.now number.now) }
{
    let field = field_in(int, offset)?;
    if let Operation::Get = operation {
        return Ok(Sub {
            operation,
            field,
            number: 0,
        });
    }
    let Some(number) = number::read_signed(number) else {
        return Err(Refusal::Number);
    };
    if let Operation::Set = operation {
        if !field::fits(field.int, number) {
            return Err(Refusal::Number);
        }
    }
    Ok(Sub {
        operation,
        field,
        number,
    })
}
