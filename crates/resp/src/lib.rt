// The words of a command in RESP2, taken by a reader that holds the command and its place in it. No function but `read_words` holds a reader.
#![tactic(auto)]

ghost use Rattle.std.specs.Prelude.{◌≡◌, false, ◌+◌, ◌≤◌, ◌<◌, length, drop, get_or, leb};
ghost use Rattle.model.specs.Checked.{given};
ghost use Rattle.model.specs.Resp.{command_limit, word_limit, decode};
ghost use Rattle.model.specs.Parse.{word_at};
ghost use Rattle.outcome.specs.Outcome.{checked};
ghost use Rattle.resp.specs.Words.{digit_at, ends_line, line_from, word_from};
ghost use Rattle.resp.specs.Spans.{words_of, span_at, span_in, Begins, Notes, noted, WordsRead, Splits, Counted};

use outcome::Refusal;

// A line's number, and the place after the line.
#[derive(Clone, Copy)]
pub struct Line {
    pub value: usize,
    pub next: usize,
}

// Where a word's bytes begin and end, and the place after its CR LF.
#[derive(Clone, Copy)]
pub struct Word {
    pub start: usize,
    pub end: usize,
    pub next: usize,
}

// Where the bytes of a word begin and end.
#[derive(Clone, Copy)]
pub struct Span {
    pub start: u16,
    pub end: u16,
}

// A borrowed command, and a place in it.
#[derive(Clone, Copy)]
pub struct Reader<'a> {
    pub command: &'a [u8],
    pub at: usize,
}

// The words of a command: its bytes, and where each of its words stands in them. Kept: places and their number are a buffer with a length, since the
// library has no heap.
#[derive(Clone, Copy)]
pub struct Words<'s, 'p> {
    bytes: &'s [u8],
    places: &'p [u16; 32],
    count: usize,
    ghost split: { Splits bytes.now places.now },
    ghost counted: { count ≡ length (words_of bytes.now) },
}

// The digit at place `at`.
pub fn digit_at(s: &[u8], at: usize) -> Option<usize>
    ensures { result ≡ digit_at s.now at }
{
    let c = *s.get(at)?;
    if c.is_ascii_digit() {
        return Some((c - b'0') as usize);
    }
    None
}

// Whether the two bytes at place `at` are CR LF. As one number they are loaded and compared at once.
fn is_crlf(s: &[u8], at: usize) -> bool
    requires { at + 2 ≤ length s.now }
    ensures { result ≡ ends_line (drop at s.now) }
{
    u16::from_le_bytes([s[at], s[at + 1]]) == u16::from_le_bytes(*b"\r\n")
}

// Whether CR LF stands at place `at`.
fn ends_line(s: &[u8], at: usize) -> bool
    ensures { result ≡ ends_line (drop at s.now) }
{
    if s.len() < 2 {
        return false;
    }
    if s.len() - 2 < at {
        return false;
    }
    is_crlf(s, at)
}

// The line at place `at` with any mark, whose number has more than one digit. No number up to 512 has four.
fn long_line(s: &[u8], at: usize) -> Option<Line>
    requires { (at + 4 ≤ length s.now) × (ends_line (drop (at + 2) s.now) ≡ false) }
    ensures { result ≡ line_from (get_or s.now at 0) s.now at }
{
    let first = digit_at(s, at + 1)?;
    if first == 0 {
        return None;
    }
    let second = digit_at(s, at + 2)?;
    let mut value = 10 * first + second;
    let mut next = at + 3;
    if let Some(third) = digit_at(s, next) {
        value = 10 * value + third;
        if 512 < value {
            return None;
        }
        next += 1;
    }
    if ends_line(s, next) {
        return Some(Line {
            value,
            next: next + 2,
        });
    }
    None
}

// The line with mark `mark` at place `at`: its number, up to 512, and the place after it. No line has fewer than 4 bytes, and most have 4.
pub fn read_line(s: &[u8], at: usize, mark: u8) -> Option<Line>
    ensures { result ≡ line_from mark s.now at }
{
    if s.len() < 4 {
        return None;
    }
    if s.len() - 4 < at {
        return None;
    }
    if s[at] != mark {
        return None;
    }
    if !is_crlf(s, at + 2) {
        return long_line(s, at);
    }
    let value = digit_at(s, at + 1)?;
    Some(Line {
        value,
        next: at + 4,
    })
}

// The bulk string at place `at`: where its bytes begin and end, and the place after it.
pub fn read_bulk(s: &[u8], at: usize) -> Option<Word>
    requires { length s.now ≤ command_limit }
    ensures { result ≡ word_from s.now at }
{
    let line = read_line(s, at, b'$')?;
    let end = line.next + line.value;
    if ends_line(s, end) {
        return Some(Word {
            start: line.next,
            end,
            next: end + 2,
        });
    }
    None
}

// Whether no byte stands at place `at`, nor after it.
fn is_end(s: &[u8], at: usize) -> bool
    ensures { result ≡ leb (length s.now) at }
{
    at >= s.len()
}

impl<'a> Reader<'a> {
    // The word at the reader's place.
    pub fn next_word(self) -> Option<Word>
        requires { length self.command.now ≤ command_limit }
        ensures { result ≡ word_from self.entry.command.now self.entry.at }
    {
        read_bulk(self.command, self.at)
    }
}

// Writes into `places` where word `i` begins and ends: the place after it.
fn note(word: Word, i: usize, places: &mut [u16; 32]) -> usize
    requires { Notes word i places.old }
    ensures { noted word i places.old ≡ (places.new, result) }
{
    places[i] = word.start as u16;
    places[16 + i] = word.end as u16;
    word.next
}

// Reads `n` bulk strings from place `at` on into `places`, where word i begins at i and where it ends at 16 + i: whether they stand there, and
// nothing after them.
fn read_words(s: &[u8], at: usize, n: usize, places: &mut [u16; 32]) -> bool
    requires { Begins s.now at n × (length places.old ≡ 32) }
    ensures { WordsRead s.now at n places.new result }
{
    let mut reader = Reader { command: s, at };
    for i in 0..n {
        let Some(word) = reader.next_word() else {
            return false;
        };
        reader.at = note(word, i, places);
    }
    is_end(s, reader.at)
}

// The number of words of a whole command, with nothing after the last; `places` says where they stand.
fn count_words(s: &[u8], places: &mut [u16; 32]) -> Option<usize>
    requires { length places.old ≡ 32 }
    ensures { Counted s.now places.new result }
{
    if 512 < s.len() {
        return None;
    }
    let Line { value, next } = read_line(s, 0, b'*')?;
    if value < 1 {
        return None;
    }
    if 16 < value {
        return None;
    }
    if read_words(s, next, value, places) {
        return Some(value);
    }
    None
}

// The words of a whole command, with nothing after the last; `places` is to hold where they stand.
pub fn split<'s, 'p>(s: &'s [u8], places: &'p mut [u16; 32]) -> Result<Words<'s, 'p>, Refusal>
    requires { length places.old ≡ 32 }
    ensures { checked (λ w. words_of w.bytes.now) result ≡ given 4 (decode s.now) }
{
    let Some(count) = count_words(s, places) else {
        return Err(Refusal::Malformed);
    };
    Ok(Words {
        bytes: s,
        places,
        count,
    })
}

impl<'s, 'p> Words<'s, 'p> {
    ghost use Rattle.resp.specs.Held.{words_in};

    // How many there are.
    pub fn len(&self) -> usize
        ensures value { result ≡ length (words_in self.now) }
        ensures few { result ≤ word_limit }
    {
        self.count
    }

    // Where word `i` stands in the command.
    pub fn span(&self, i: usize) -> Span
        requires { i < word_limit }
        ensures noted { result ≡ span_in self.now.places.now i }
        ensures word { i < length (words_in self.now) → result ≡ span_at i (words_in self.now) }
    {
        let places = self.places;
        Span {
            start: places[i],
            end: places[16 + i],
        }
    }

    // Word `i`, and the empty part where there is none.
    pub fn word(&self, i: usize) -> &'s [u8]
        ensures { result.now ≡ word_at i (words_in self.now) }
    {
        if i < self.count {
            let w = self.span(i);
            return &self.bytes[w.start as usize..w.end as usize];
        }
        &self.bytes[0..0]
    }
}
