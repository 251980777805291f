// Where the bytes of a command so far stand in its frame: what comes next, and how many bytes a whole command still needs from there.
ghost use Rattle.std.specs.Prelude.{◌≡◌, ◌+◌, ◌<◌, ◌≤◌};
ghost use Rattle.stream.specs.Frame.{allowed, after, first, digit, body, words, next, need_after, need};
ghost use Rattle.stream.specs.Machine.{is_end};
ghost use Rattle.assembler.specs.Places.{header_of, place_of, moved_to, digit_in, beyond};

// The most bytes of a command.
const COMMAND_LIMIT: u16 = 512;

// The line of an array, or that of a bulk string with so many words after it.
#[derive(Clone, Copy)]
pub enum Header {
    Array,
    Bulk(u16),
}

// What comes next.
#[derive(Clone, Copy)]
pub enum Place {
    // the array's mark
    Start,
    // the first digit of a header's number
    First(Header),
    // one more digit, or the CR of the line, after digits that mean this number
    Digit(Header, u16),
    // the LF of a header's line with this number
    LineEnd(Header, u16),
    // so many bytes of a word, then its CR; and how many words come after it
    Body(u16, u16),
    // the LF after a word
    BodyEnd(u16),
    // so many words, and nothing after them
    Words(u16),
}

// What the byte c means as a decimal digit.
fn digit_of(c: u8) -> Option<u16>
    ensures { result ≡ digit_in c }
{
    match c {
        b'0'..=b'9' => Some(u16::from(c - b'0')),
        _ => None,
    }
}

impl Header {
    // Whether a header may have this number: an array has 1 to 16 words.
    fn allows(self, n: u16) -> bool
        ensures { result ≡ allowed (header_of self) n }
    {
        match self {
            Header::Array => matches!(n, 1..=16),
            Header::Bulk(_) => true,
        }
    }

    // What a header's line with this number stands before.
    fn after(self, n: u16) -> Place
        ensures { place_of result ≡ after (header_of self) n }
    {
        match self {
            Header::Array => Place::Words(n),
            Header::Bulk(later) => Place::Body(n, later),
        }
    }

    // The bytes that a whole command needs at least after a header's line; a word needs 6: $0 CR LF CR LF.
    fn need_after(self, n: u16) -> u16
        requires { need_after (header_of self) n < 65536 }
        ensures { result ≡ need_after (header_of self) n }
    {
        match self {
            Header::Array => 6 * n,
            Header::Bulk(later) => n + 2 + 6 * later,
        }
    }

    // After the byte c where a header's number begins.
    fn first_digit(self, c: u8) -> Option<Place>
        ensures { moved_to result ≡ next (first (header_of self)) c }
    {
        let n = digit_of(c)?;
        self.allows(n).then_some(Place::Digit(self, n))
    }

    // After the byte c where digits that mean n stand before it. No number begins with 0 and goes on.
    fn next_digit(self, n: u16, c: u8) -> Option<Place>
        requires { n ≤ 512 }
        ensures { moved_to result ≡ next (digit (header_of self) n) c }
    {
        if c == b'\r' {
            return Some(Place::LineEnd(self, n));
        }
        let longer = 10 * n + digit_of(c)?;
        (n != 0 && self.allows(longer)).then_some(Place::Digit(self, longer))
    }
}

// After the byte c where n bytes of a word are still to come.
fn next_in_body(n: u16, later: u16, c: u8) -> Option<Place>
    ensures { moved_to result ≡ next (body n later) c }
{
    match n.checked_sub(1) {
        None => (c == b'\r').then_some(Place::BodyEnd(later)),
        Some(left) => Some(Place::Body(left, later)),
    }
}

// After the byte c where n words are still to come.
fn next_word(n: u16, c: u8) -> Option<Place>
    ensures { moved_to result ≡ next (words n) c }
{
    let later = n.checked_sub(1)?;
    (c == b'$').then_some(Place::First(Header::Bulk(later)))
}

impl Place {
    // The place after the byte c, the limit of 512 bytes aside; none where no command of any length has that byte there.
    pub fn next(self, c: u8) -> Option<Self>
        requires { need (place_of self) ≤ 512 }
        ensures { moved_to result ≡ next (place_of self) c }
    {
        match self {
            Place::Start => (c == b'*').then_some(Place::First(Header::Array)),
            Place::First(header) => header.first_digit(c),
            Place::Digit(header, n) => header.next_digit(n, c),
            Place::LineEnd(header, n) => (c == b'\n').then_some(header.after(n)),
            Place::Body(n, later) => next_in_body(n, later, c),
            Place::BodyEnd(later) => (c == b'\n').then_some(Place::Words(later)),
            Place::Words(n) => next_word(n, c),
        }
    }

    // Whether no whole command of at most 512 bytes can follow, after `used` bytes that lead here. Only a digit can make it so: every other byte
    // takes one from what is still needed.
    pub fn is_beyond(self, used: u16) -> bool
        requires { used + need (place_of self) < 65536 }
        ensures { result ≡ beyond (place_of self) used }
    {
        match self {
            Place::Digit(header, n) => COMMAND_LIMIT < used + (2 + header.need_after(n)),
            _ => false,
        }
    }

    // Whether the command is whole.
    pub fn is_end(self) -> bool
        ensures { result ≡ is_end (place_of self) }
    {
        matches!(self, Place::Words(0))
    }
}
