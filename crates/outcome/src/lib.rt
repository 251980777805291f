// Why a call is refused, and what the code answers as the model has it.
#![tactic(auto)]

ghost use Rattle.std.specs.Prelude.{◌≡◌};
ghost use Rattle.outcome.specs.Outcome.{number_of};

// The tests that can refuse a call, each with document 01's number. The first four and the last refuse without a reply.
#[derive(Clone, Copy, Debug, PartialEq, Eq)]
pub enum Refusal {
    // the table is damaged
    Damaged = 1,
    // the time is too late
    Time = 2,
    // the reply buffer is too short
    Room = 3,
    // the bytes are no command
    Malformed = 4,
    // no command has this name
    Unknown = 5,
    // the command has too few words or too many
    Words = 6,
    // the key is empty, or key or value is too long
    Size = 7,
    // an option or a subcommand is wrong, or given twice, or missing
    Syntax = 8,
    // a word is no number in its range
    Number = 9,
    // the expiry is out of range
    Expiry = 10,
    // MIN is above MAX
    Bounds = 11,
    // the version is another one
    Stale = 12,
    // the stored value is no number
    Stored = 13,
    // the sum is out of range
    Overflow = 14,
    // the version is the highest
    Version = 15,
    // the value would be too long
    Length = 16,
    // no slot is free
    Full = 17,
    // the boundary leaves a party no record
    Boundary = 18,
}

impl Refusal {
    // Document 01's number.
    pub fn number(self) -> u32
        ensures { result ≡ number_of self }
    {
        self as u32
    }
}
