// The words of BITFIELD's subcommands as subcommands by value, or the first test that refuses them: 8 or 9.
#![tactic(auto)]

mod word;

ghost use Rattle.std.specs.Prelude.{◌≡◌, ◌≤◌, drop, IfOk};
ghost use Rattle.model.specs.Subcommands.{arity, subcommands_in};
ghost use Rattle.outcome.specs.Outcome.{checked};
ghost use Rattle.resp.specs.Held.{words_in};
ghost use Rattle.command.specs.Subcommand.{model_mode, model_subs};
ghost use Rattle.command.specs.Words.{model_sub_name};
ghost use Rattle.subcommands.specs.Steps.{Does};

use command::{Field, IntType, Mode, Operation, Sub, SubName, Subs};
use outcome::Refusal;
use resp::Words;

// What stands where there is no subcommand.
const NO_SUB: Sub = Sub {
    operation: Operation::Get,
    field: Field {
        int: IntType {
            signed: false,
            width: 1,
        },
        offset: 0,
    },
    number: 0,
};

// How many words follow a name.
fn arity(name: SubName) -> usize
    ensures { result ≡ arity (model_sub_name name) }
{
    match name {
        SubName::Get => 2,
        SubName::Set | SubName::Incrby => 3,
        SubName::Overflow => 1,
    }
}

// What a name does, with the mode of the last OVERFLOW before it; an OVERFLOW does nothing itself.
fn operation_of(name: SubName, mode: Mode) -> Option<Operation>
    ensures { Does (model_sub_name name) (model_mode mode) result }
{
    match name {
        SubName::Get => Some(Operation::Get),
        SubName::Set => Some(Operation::Set),
        SubName::Incrby => Some(Operation::Incrby(mode)),
        SubName::Overflow => None,
    }
}

// The subcommands of a command, which stand after the key. One that is wrong is refused only after the last, since test 8 comes before 9.
pub fn subcommands_in(words: &Words<'_, '_>) -> Result<Subs, Refusal>
    ensures subs { checked model_subs result ≡ subcommands_in (drop 2 (words_in words.now)) }
    ensures few { IfOk result (λ s. s.count ≤ 4) }
{
    let mut list = [NO_SUB; 4];
    let mut count = 0;
    let mut mode = Mode::Wrap;
    let mut wrong = false;
    let mut i = 2;
    // Kept: a subcommand is two words to four, so that the loop has no range to go over
    while i < words.len() {
        let name = keyword::sub_name_of(words.word(i))?;
        let at = i + 1;
        i = at + arity(name);
        if words.len() < i {
            return Err(Refusal::Syntax);
        }
        match operation_of(name, mode) {
            None => mode = keyword::mode_of(words.word(at))?,
            Some(operation) => {
                let int = words.word(at);
                let offset = words.word(at + 1);
                let number = words.word(at + 2);
                match word::sub_in(operation, int, offset, number) {
                    Ok(sub) => {
                        list[count] = sub;
                        count += 1;
                    }
                    Err(_) => wrong = true,
                }
            }
        }
    }
    if wrong {
        return Err(Refusal::Number);
    }
    Ok(Subs { list, count })
}
