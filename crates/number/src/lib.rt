// Decimal text and signed numbers of 64 bits, both ways, and their exact sum.
#![tactic(auto)]

ghost use Rattle.std.specs.Prelude.{◌≡◌, [], ◌∷◌, ℕ, suc, ◌+◌, ◌-◌, ◌*◌, ◌/◌, ◌%◌, ◌^◌, ◌≤◌, ◌<◌, length, leb, pos, neg_ℤ, nat_abs, ◌+ℤ◌};
ghost use Rattle.model.specs.Number.{read_digits, read_magnitude, read_signed, read_below, read_version, read_flags, signed_limit, nat_text, int_text};
ghost use Rattle.slice.specs.Wrote.{Wrote};
ghost use Rattle.number.specs.Answer.{sign_length, sum_from, negative_from};
ghost use Rattle.outcome.specs.Outcome.{from_model};

// The side on which a number leaves its range.
#[derive(Clone, Copy, Debug, PartialEq, Eq)]
pub enum Side {
    Under,
    Over,
}

// Any digit can follow a number above this one, and none a number below it.
const LEAST_TENTH: i64 = i64::MIN / 10;

// Whether the digit d can follow `acc`, which is 0 or below, within 64 signed bits.
fn has_room(acc: i64, d: i64) -> bool
    requires { (acc ≡ neg_ℤ (pos (nat_abs acc))) × (d ≡ pos (nat_abs d)) × (nat_abs d ≤ 9) }
    ensures { result ≡ leb (10 * nat_abs acc + nat_abs d) signed_limit }
{
    // Kept: `cmp` and a match of its three cases was tried; it is no plainer, and a digit takes five instructions more
    if LEAST_TENTH < acc {
        return true;
    }
    if acc < LEAST_TENTH {
        return false;
    }
    d <= 8
}

// The number `acc`, which is 0 or below, with the digit `c` after it. Below 0 the range has one number more.
fn push(acc: i64, c: u8) -> Option<i64>
    requires { acc ≡ neg_ℤ (pos (nat_abs acc)) }
    ensures { result ≡ negative_from (read_digits (nat_abs acc) (c ∷ [])) }
{
    if !c.is_ascii_digit() {
        return None;
    }
    let d = (c - b'0') as i64;
    if !has_room(acc, d) {
        return None;
    }
    Some(acc * 10 - d)
}

// Minus the number that digits say, one to twenty of them.
fn read_negative(s: &[u8]) -> Option<i64>
    ensures { result ≡ negative_from (read_magnitude s.now) }
{
    if s.is_empty() {
        return None;
    }
    if 20 < s.len() {
        return None;
    }
    let mut acc = 0;
    for c in s {
        acc = push(acc, *c)?;
    }
    Some(acc)
}

// How many bytes the sign takes of a text that begins with this byte.
fn sign_length(first: u8) -> usize
    ensures { result ≡ sign_length first }
{
    // Kept: a match with an arm for any other byte is no plainer, and a number takes two instructions more
    if first == b'-' {
        return 1;
    }
    if first == b'+' {
        return 1;
    }
    0
}

// The number that a text says, an optional plus or minus and digits, within 64 signed bits. The digits are read below 0, and without a minus the
// sign is changed.
pub fn read_signed(s: &[u8]) -> Option<i64>
    ensures { result ≡ from_model (read_signed s.now) }
{
    let first = *s.first()?;
    let from = sign_length(first);
    let v = read_negative(&s[from..])?;
    if first == b'-' {
        return Some(v);
    }
    // Kept: `checked_neg` would hide which number has no opposite, and takes eight instructions more
    if v == i64::MIN {
        return None;
    }
    Some(-v)
}

// The natural number below `limit` that a text says.
pub fn read_below(s: &[u8], limit: u64) -> Option<u64>
    requires { limit ≤ signed_limit }
    ensures { result ≡ from_model (read_below limit s.now) }
{
    let n = u64::try_from(read_signed(s)?).ok()?;
    if n < limit {
        return Some(n);
    }
    None
}

// The version that a text says, from 0 to 2^63 - 1.
#[tactic(auto, unfolding(model::specs::Number::read_version))]
pub fn read_version(s: &[u8]) -> Option<u64>
    ensures { result ≡ from_model (read_version s.now) }
{
    read_below(s, 9223372036854775808)
}

// The flags that a text says, from 0 to 2^32 - 1.
#[tactic(auto, unfolding(model::specs::Number::read_flags))]
pub fn read_flags(s: &[u8]) -> Option<u64>
    ensures { result ≡ from_model (read_flags s.now) }
{
    read_below(s, 4294967296)
}

// The exact sum, or the side on which it leaves 64 signed bits.
pub fn add(a: i64, b: i64) -> Result<i64, Side>
    ensures { result ≡ sum_from (a +ℤ b) }
{
    if b < 0 {
        if a < i64::MIN - b {
            return Err(Side::Under);
        }
    } else if i64::MAX - b < a {
        return Err(Side::Over);
    }
    Ok(a + b)
}

// How many digits a number has, and the power of ten of the first.
#[derive(Clone, Copy)]
struct Scale {
    digits: usize,
    power: u64,
}

// The scale of `n`. The power of ten after 10^19 would not fit.
fn scale_of(n: u64) -> Scale
    ensures { (result.digits ≡ length (nat_text n)) × (result.power ≡ 10 ^ (result.digits - 1)) }
{
    let mut power: u64 = 1;
    for digits in 1..20 {
        let next = power * 10;
        if n < next {
            return Scale { digits, power };
        }
        power = next;
    }
    Scale { digits: 20, power }
}

// How many digits the text of `n` has.
pub fn count_digits(n: u64) -> usize
    ensures { result ≡ length (nat_text n) }
{
    scale_of(n).digits
}

// The power of ten below a power of ten, multiplied up from 1, so that nothing is divided.
fn power_below(power: u64) -> u64
    requires { power ≤ 10 ^ 19 }
    ensures { (k : ℕ) → power ≡ 10 ^ suc k → result ≡ 10 ^ k }
{
    let mut below = 1;
    let mut next = 10;
    // Kept: the loop multiplies and counts nothing
    while next < power {
        below = next;
        next *= 10;
    }
    below
}

// The byte of a digit, and what is left of the number after it.
#[derive(Clone, Copy)]
struct Digit {
    byte: u8,
    rest: u64,
}

// The digit of `n` at a power of ten: how often the power can be taken away.
fn take_digit(n: u64, power: u64) -> Digit
    requires { n < 10 * power }
    ensures { (result.byte ≡ 48 + n / power) × (result.rest ≡ n % power) }
{
    let mut byte = b'0';
    let mut rest = n;
    // Kept: the loop takes away and counts in the digit itself, since nothing is divided
    while power <= rest {
        byte += 1;
        rest -= power;
    }
    Digit { byte, rest }
}

// Writes the text of `n` over `buf` from place `at` on, at falling powers of ten, and gives back the place after it.
pub fn write_natural(buf: &mut [u8], at: usize, n: u64) -> usize
    requires { at + length (nat_text n) ≤ length buf.old }
    ensures { Wrote at (nat_text n) buf.old buf.new result }
{
    let mut power = scale_of(n).power;
    let mut place = at;
    let mut rest = n;
    // Kept: the power itself says when to end; a `for` over the places was proved, is no plainer and takes a fifteenth more instructions
    while 1 < power {
        let digit = take_digit(rest, power);
        buf[place] = digit.byte;
        rest = digit.rest;
        place += 1;
        power = power_below(power);
    }
    buf[place] = b'0' + rest as u8;
    place + 1
}

// Writes the text of `z` over `buf` from place `at` on, and gives back the place after it.
pub fn write_signed(buf: &mut [u8], at: usize, z: i64) -> usize
    requires { at + length (int_text z) ≤ length buf.old }
    ensures { Wrote at (int_text z) buf.old buf.new result }
{
    let m = z.unsigned_abs();
    if z < 0 {
        buf[at] = b'-';
        return write_natural(buf, at + 1, m);
    }
    write_natural(buf, at, m)
}
