// Building a command in RESP2, word by word in a borrowed buffer.
#![tactic(auto)]

ghost use Rattle.std.specs.Prelude.{◌≡◌, ◌&&◌, ◌+◌, ◌≤◌, ◌<◌, IfSome, length, drop, leb};
ghost use Rattle.std.proofs.Math.Option.{get_or};
ghost use Rattle.outcome.specs.Outcome.{from_model, to_model};
ghost use Rattle.model.specs.Resp.{command_limit, bulk_bytes};
ghost use Rattle.model.specs.Build.{bulks_left, words_left, begin_in, add_word_in};

use resp::Line;

// How many of `n` words are left to add, where bulk strings stand from place `at` on; none where anything else stands there.
fn bulks_left(s: &[u8], at: usize, n: usize) -> Option<usize>
    requires { length s.now ≤ command_limit }
    ensures { result ≡ from_model (bulks_left n (drop at s.now)) }
{
    let mut place = at;
    let mut left = n;
    // Kept: a bulk string says itself where the next one begins, so that the loop has no range to go over
    while place < s.len() {
        left = left.checked_sub(1)?;
        let Some(word) = resp::read_bulk(s, place) else {
            return None;
        };
        place = word.next;
    }
    Some(left)
}

// How many words are left to add to a command that is begun; none where the bytes begin no command.
fn words_left(s: &[u8]) -> Option<usize>
    requires { length s.now ≤ command_limit }
    ensures { result ≡ from_model (words_left s.now) }
{
    let Some(Line { value, next }) = resp::read_line(s, 0, b'*') else {
        return None;
    };
    if value < 1 {
        return None;
    }
    if 16 < value {
        return None;
    }
    bulks_left(s, next, value)
}

// The length of a word's bulk string.
fn bulk_len(word: &[u8]) -> usize
    requires { length word.now ≤ command_limit }
    ensures { result ≡ length (bulk_bytes word.now) }
{
    number::count_digits(word.len() as u64) + word.len() + 5
}

// Whether a word's bulk string that begins at place `len` ends within the limit of a command and within a buffer of `cap` bytes.
fn word_fits(cap: usize, len: usize, word: &[u8]) -> bool
    requires { len ≤ command_limit }
    ensures { result ≡ leb (len + length (bulk_bytes word.now)) command_limit && leb (len + length (bulk_bytes word.now)) cap }
{
    if 512 < word.len() {
        return false;
    }
    let end = len + bulk_len(word);
    (end <= 512) & (end <= cap)
}

// Begins a command of `words` words at the front of a buffer: its length, none where it is refused. Words are 1 to 16; a refusal changes nothing.
pub fn begin_command(buffer: &mut [u8], words: usize) -> Option<usize>
    ensures built { begin_in buffer.old words ≡ (buffer.new, get_or (to_model result) 0) }
    ensures some { IfSome result (λ n. 0 < n) }
{
    if words < 1 {
        return None;
    }
    if 16 < words {
        return None;
    }
    if buffer.len() < 3 + number::count_digits(words as u64) {
        return None;
    }
    Some(piece::put_array(buffer, 0, words))
}

// Adds a word to the command that the first `len` bytes of a buffer begin: its length then, none where it is refused. They are refused where
// they begin no command, or one that lacks no word, and a word for which there is no room. A refusal changes nothing.
pub fn add_word(buffer: &mut [u8], len: usize, word: &[u8]) -> Option<usize>
    ensures built { add_word_in buffer.old len word.now ≡ (buffer.new, get_or (to_model result) 0) }
    ensures some { IfSome result (λ n. 0 < n) }
{
    if buffer.len() < len {
        return None;
    }
    if 512 < len {
        return None;
    }
    let left = words_left(&buffer[..len])?;
    if left < 1 {
        return None;
    }
    if !word_fits(buffer.len(), len, word) {
        return None;
    }
    Some(piece::put_bulk(buffer, len, word))
}
