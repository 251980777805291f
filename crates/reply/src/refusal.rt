// The error replies of the refusals by 5 to 17.
ghost use Rattle.std.specs.Prelude.{◌≡◌, ◌++◌, ◌-◌, ◌≤◌, [], get_or};
ghost use Rattle.model.specs.Bytes.{text};
ghost use Rattle.model.specs.Call.{messages, error_reply};
ghost use Rattle.outcome.specs.Outcome.{number_of};
ghost use Rattle.reply.specs.Replied.{FitsIn, Replied};

use crate::Answer;
use outcome::Refusal;
use piece::put_error;

// The text of the error reply of a refusal by 5 to 17.
fn message(refusal: Refusal) -> &'static [u8]
    requires { (5 ≤ number_of refusal) × (number_of refusal ≤ 17) }
    ensures { result.now ≡ text "ERR " ++ get_or messages (number_of refusal - 5) [] }
{
    match refusal {
        Refusal::Unknown => b"ERR unknown command",
        Refusal::Words => b"ERR wrong number of arguments",
        Refusal::Size => b"ERR string exceeds maximum allowed size",
        Refusal::Syntax => b"ERR syntax error",
        Refusal::Number => b"ERR value is not an integer or out of range",
        Refusal::Expiry => b"ERR invalid expire time",
        Refusal::Bounds => b"ERR min or max is specified, but not valid",
        Refusal::Stale => b"ERR update version is stale",
        Refusal::Stored => b"ERR stored value is not an integer",
        Refusal::Overflow => b"ERR increment or decrement would overflow",
        Refusal::Version => b"ERR version would overflow",
        Refusal::Length => b"ERR string exceeds maximum allowed size",
        Refusal::Full => b"ERR table is full",
        Refusal::Damaged => b"",
        Refusal::Time => b"",
        Refusal::Room => b"",
        Refusal::Malformed => b"",
        Refusal::Boundary => b"",
    }
}

// Refuses by a number from 5 to 17, with its error reply.
pub fn error(reply: &mut [u8], refusal: Refusal) -> Answer
    requires { (FitsIn (error_reply (number_of refusal)) reply.old) × (5 ≤ number_of refusal) × (number_of refusal ≤ 17) }
    ensures { Replied (number_of refusal) (error_reply (number_of refusal)) reply.old reply.new result }
{
    let len = put_error(reply, 0, message(refusal));
    Answer {
        number: refusal.number(),
        len,
    }
}
