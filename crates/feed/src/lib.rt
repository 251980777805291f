// A command that comes a few bytes at a time: each call is handed one piece more.
#![tactic(auto)]

ghost use Rattle.model.specs.Table.{form128};
ghost use Rattle.model.specs.Call.{call};
ghost use Rattle.feed.specs.Feeds.{Feeds, inputs};

use assembler::Assembled;
use outcome::Refusal;
use reply::Answer;

// What a piece comes to: no whole command yet, and so many bytes are held; or so many bytes of the piece are taken and this is the answer, and
// nothing is held.
// Kept: an enum, since neither is a failure: after both the caller goes on.
#[derive(Clone, Copy)]
pub enum Progress {
    More(usize),
    Answered(usize, Answer),
}

// Takes a piece; a command that it makes whole is applied to the table. The first `held` bytes of the assembler's are those held since the
// calls before.
pub fn feed(
    bytes: &mut [u8],
    held: usize,
    piece: &[u8],
    table: &mut [u8],
    time: u64,
    reply: &mut [u8],
) -> Progress
    ensures { Feeds (call form128) bytes.old held (inputs piece.now table.old time reply.old) result bytes.new table.new reply.new }
{
    match assembler::assemble(bytes, held, piece) {
        Assembled::More => Progress::More(held + piece.len()),
        Assembled::Refused(n) => Progress::Answered(n, Answer::silent(Refusal::Malformed)),
        Assembled::Whole(n) => {
            let command = assembler::command(bytes, held, piece, n);
            let answer = store::call(table, time, command, reply);
            Progress::Answered(n, answer)
        }
    }
}
