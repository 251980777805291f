// Replies in RESP2: whole replies, and the answer to a call.
#![tactic(auto)]

ghost use Rattle.std.specs.Prelude.{◌≡◌};
ghost use Rattle.outcome.specs.Outcome.{number_of};

mod refusal;
mod whole;

use outcome::Refusal;
pub use piece::{put_array, put_bulk, put_error, put_integer, put_nil, put_simple};
pub use refusal::error;
pub use whole::{count, elements, get, minus_one, nil, number, set, stale, swap};

// Document 01's number and the reply's length. Kept: the number is what C gets, 0 for an answer.
#[derive(Clone, Copy)]
pub struct Answer {
    pub number: u32,
    pub len: usize,
}

impl Answer {
    // A refusal without a reply.
    pub fn silent(refusal: Refusal) -> Answer
        ensures { result ≡ record { number = number_of refusal; len = 0 } }
    {
        Answer {
            number: refusal.number(),
            len: 0,
        }
    }
}
