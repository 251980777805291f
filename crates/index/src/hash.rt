// The hash of a key, from its bytes with the zeros after it or from the key alone.
ghost use Rattle.std.specs.Prelude.{◌≡◌, ◌+◌, ◌%◌, ◌≤◌, length};
ghost use Rattle.model.specs.Bytes.{padded};
ghost use Rattle.model.specs.Table.{key_limit};
ghost use Rattle.index.specs.Hash.{word_at, with_word, mixed, hash_of};

// The hash of a key with the zeros after it.
pub fn of_padded(key: &[u8]) -> u64
    requires { length key.now ≡ key_limit }
    ensures { result ≡ hash_of key.now }
{
    mix(
        slice::get8(key, 0),
        slice::get8(key, 8),
        slice::get8(key, 16),
    )
}

// The hash of a key, which is not copied.
pub fn of_key(key: &[u8]) -> u64
    requires { length key.now ≤ key_limit }
    ensures { result ≡ hash_of (padded key_limit key.now) }
{
    mix(word(key, 0), word(key, 8), word(key, 16))
}

// The word at a place of a key with the zeros after it. Where the key ends within the word, its last eight bytes are read and those before the
// word shifted out; a key that has fewer is read byte by byte.
fn word(key: &[u8], at: usize) -> u64
    requires { (length key.now ≤ key_limit) × (at + 8 ≤ key_limit) × (at % 8 ≡ 0) }
    ensures { result ≡ word_at at (padded key_limit key.now) }
{
    let n = key.len();
    if n <= at {
        return 0;
    }
    if at + 8 <= n {
        return slice::get8(key, at);
    }
    if 8 <= n {
        return slice::get8(key, n - 8) >> (8 * (at + 8 - n));
    }
    let mut w = 0;
    for i in (0..n).rev() {
        w = w * 256 + key[i] as u64;
    }
    w
}

// Three words made one number. The factor is below 2^31, so that the product fits.
fn mix(a: u64, b: u64, c: u64) -> u64
    ensures { result ≡ mixed a b c }
{
    let all = with_word(with_word(a, b), c);
    (all % 4294967296 + all / 4294967296) * 1688876449 / 16777216
}

// Nine times x and one word more, modulo 2^64. Nine times is one instruction, and the same bytes count differently in each word.
fn with_word(x: u64, word: u64) -> u64
    ensures { result ≡ with_word x word }
{
    let eight = x % 2305843009213693952 * 8;
    x.wrapping_add(eight).wrapping_add(word)
}
