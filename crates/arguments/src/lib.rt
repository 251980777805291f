// The fixed words of a command: how many there are, the sizes of key and value, and the number among them.
#![tactic(auto)]

ghost use Rattle.std.specs.Prelude.{◌≡◌};
ghost use Rattle.model.specs.Checked.{given};
ghost use Rattle.model.specs.Parse.{count_ok, sizes_ok, read_fixed};
ghost use Rattle.record.specs.Forms.{form_of};
ghost use Rattle.command.specs.Rules.{model_rule, model_number};
ghost use Rattle.outcome.specs.Outcome.{checked};
ghost use Rattle.arguments.specs.Fixed.{model_fixed};

use command::{NumberKind, Rule};
use outcome::Refusal;
use record::{Form, KEY_LIMIT};

// The number that the last fixed word says, signed or a version, with 0 for the other.
// Kept: an enum of the two would need an arm that is never taken in each action that has a number, which is no plainer.
#[derive(Clone, Copy)]
pub struct Fixed {
    pub by: i64,
    pub version: u64,
}

// Whether a command may have `count` words.
pub fn count_ok(rule: Rule, count: usize) -> bool
    ensures { result ≡ count_ok (model_rule rule) count }
{
    (rule.fixed <= count) & (!rule.exact | (count == rule.fixed))
}

// Whether a key and a value of these lengths are in range.
pub fn sizes_ok(form: Form, rule: Rule, key: usize, value: usize) -> bool
    ensures { result ≡ sizes_ok (form_of form) (model_rule rule) key value }
{
    let valued = !rule.valued | (value <= record::limit(form));
    (1 <= key) & ((key <= KEY_LIMIT) & valued)
}

// The number that the last fixed word `w` says, for the commands that have one there.
pub fn read_fixed(number: Option<NumberKind>, w: &[u8]) -> Result<Fixed, Refusal>
    ensures { checked (model_fixed (model_number number)) result ≡ given 9 (read_fixed (model_number number) w.now) }
{
    let Some(kind) = number else {
        return Ok(Fixed { by: 0, version: 0 });
    };
    match kind {
        NumberKind::Signed => {
            let Some(by) = number::read_signed(w) else {
                return Err(Refusal::Number);
            };
            Ok(Fixed { by, version: 0 })
        }
        NumberKind::Version => {
            let Some(version) = number::read_version(w) else {
                return Err(Refusal::Number);
            };
            Ok(Fixed { by: 0, version })
        }
    }
}
