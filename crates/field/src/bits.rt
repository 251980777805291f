// The bits of a field, read and written a byte at a time: at most nine steps for 64 bits.
ghost use Rattle.std.specs.Prelude.{◌≡◌, ◌+◌, ◌*◌, ◌^◌, ◌<◌, ◌≤◌, true, length, slice_index};
ghost use Rattle.model.specs.Field.{is_int_type, end_bit, field_bits, set_field_bits};
ghost use Rattle.command.specs.Subcommand.{model_int, model_field};
ghost use Rattle.field.specs.Bytewise.{taken, bits_above, patched};

use command::Field;

// Of `left` bits from bit `from` of a byte on, how many are in that byte.
fn taken(from: usize, left: usize) -> usize
    requires { from < 8 }
    ensures { result ≡ taken from left }
{
    left.min(8 - from)
}

// The byte at a place, and 0 past the end.
fn byte_at(value: &[u8], i: usize) -> u64
    ensures { (result ≡ slice_index value.now i) × (result < 256) }
{
    value.get(i).copied().unwrap_or(0) as u64
}

// The `n` bits of a number above its `lower` lowest.
fn bits_above(bits: u64, n: usize, lower: usize) -> u64
    requires { (1 ≤ n) × (n ≤ 8) × (lower < 64) }
    ensures { result ≡ bits_above n lower bits }
{
    (bits >> lower) & (255 >> (8 - n))
}

// The bits of a field as a number; past the end of the value they are 0.
pub fn read_bits(value: &[u8], field: Field) -> u64
    requires { is_int_type (model_int field.int) ≡ true }
    ensures { result ≡ field_bits (model_field field) value.now }
{
    // the next bit is bit `from` of byte `i`; its number in the whole value might not fit 64 bits
    let mut i = (field.offset / 8) as usize;
    let mut from = (field.offset % 8) as usize;
    let mut left = field.int.width as usize;
    let mut bits: u64 = 0;
    // Kept: the loop goes by the bits that are left; a `for` over the bytes would need their number first, and is no plainer
    while 0 < left {
        let n = taken(from, left);
        bits = (bits << n) + bits_above(byte_at(value, i), n, 8 - from - n);
        i += 1;
        from = 0;
        left -= n;
    }
    bits
}

// A byte with the `n` bits above its `lower` lowest replaced by `bits`.
fn patched(byte: u8, n: usize, lower: usize, bits: u64) -> u8
    requires { (1 ≤ n) × (n + lower ≤ 8) × (bits < 2 ^ n) }
    ensures { result ≡ patched n lower bits byte }
{
    let old = byte as u64;
    let above = n + lower;
    let high = (old >> above) << above;
    let low = old & ((1 << lower) - 1);
    (high + (bits << lower) + low) as u8
}

// Writes the low bits of a number into a field that lies within the value.
pub fn write_bits(value: &mut [u8], field: Field, bits: u64)
    requires { (is_int_type (model_int field.int) ≡ true) × (end_bit (model_field field) ≤ 8 * length value.old) }
    ensures { value.new ≡ set_field_bits (model_field field) bits value.old }
{
    let mut i = (field.offset / 8) as usize;
    let mut from = (field.offset % 8) as usize;
    let mut left = field.int.width as usize;
    // Kept: the loop goes by the bits that are left; a `for` over the bytes would need their number first, and is no plainer
    while 0 < left {
        let n = taken(from, left);
        left -= n;
        value[i] = patched(value[i], n, 8 - from - n, bits_above(bits, n, left));
        i += 1;
        from = 0;
    }
}
