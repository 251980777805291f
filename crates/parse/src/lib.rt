// The words of a command as a command by value, or the first test that refuses it, 5 to 11.
#![tactic(auto)]

mod action;

ghost use Rattle.std.specs.Prelude.{◌≡◌, ◌≤◌};
ghost use Rattle.model.specs.Table.{time_limit};
ghost use Rattle.model.specs.Command.{rule_of};
ghost use Rattle.model.specs.Parse.{fixed_ok, parse_options, parse_named, parse_bitfield, parse};
ghost use Rattle.outcome.specs.Outcome.{checked};
ghost use Rattle.resp.specs.Held.{words_in};
ghost use Rattle.record.specs.Forms.{form_of};
ghost use Rattle.command.specs.Command.{checked_parsed};
ghost use Rattle.command.specs.Rules.{model_rule};
ghost use Rattle.command.specs.Words.{model_name};

use command::{Name, Named, Rule, Task};
use outcome::Refusal;
use record::Form;
use resp::Words;

// The command of a name: tests 8 to 11. The number among the fixed words is read first, and refused where its test stands. Options are not looked
// for where no words are left for them, since most commands have none.
#[tactic(auto, unfolding(model::specs::Parse::parse_options, model::specs::Parse::parse_numbers))]
fn parse_options(words: &Words<'_, '_>, time: u64, name: Name, rule: Rule) -> Result<Task, Refusal>
    requires in_time { time ≤ time_limit }
    requires rule { model_rule rule ≡ rule_of (model_name name) }
    ensures { checked_parsed (words_in words.now) result ≡ parse_options time (words_in words.now) (model_name name) }
{
    let word = words.word(rule.fixed - 1);
    let fixed = arguments::read_fixed(rule.number, word);
    if words.len() <= rule.fixed {
        if rule.timed {
            return Err(Refusal::Syntax);
        }
        let said = values::unsaid(rule.keeps);
        return Ok(Task::Action(action::action_of(name, fixed?, said)));
    }
    let o = options::options_in(words, rule)?;
    let fixed = fixed?;
    let said = values::said_in(words, time, rule.keeps, o)?;
    Ok(Task::Action(action::action_of(name, fixed, said)))
}

// Tests how many words a command has, and the sizes of its key and value: 6 and 7.
fn check_fixed(words: &Words<'_, '_>, form: Form, rule: Rule) -> Result<(), Refusal>
    ensures { checked (λ u. u) result ≡ fixed_ok (form_of form) (model_rule rule) (words_in words.now) }
{
    if !arguments::count_ok(rule, words.len()) {
        return Err(Refusal::Words);
    }
    if !arguments::sizes_ok(form, rule, words.word(1).len(), words.word(2).len()) {
        return Err(Refusal::Size);
    }
    Ok(())
}

// The command of a name: tests 6 to 11.
#[tactic(auto, unfolding(model::specs::Parse::parse_named))]
fn parse_named(words: &Words<'_, '_>, time: u64, form: Form, name: Name) -> Result<Task, Refusal>
    requires { time ≤ time_limit }
    ensures { checked_parsed (words_in words.now) result ≡ parse_named (form_of form) time (words_in words.now) (model_name name) }
{
    let rule = command::rule_of(name);
    check_fixed(words, form, rule)?;
    parse_options(words, time, name, rule)
}

// BITFIELD: tests 6 and 7.
#[tactic(auto, unfolding(model::specs::Parse::parse_bitfield))]
fn parse_bitfield(words: &Words<'_, '_>, form: Form) -> Result<Task, Refusal>
    ensures { checked_parsed (words_in words.now) result ≡ parse_bitfield (form_of form) (words_in words.now) }
{
    check_fixed(words, form, command::bitfield_rule())?;
    Ok(Task::Bitfield)
}

// What the words of a command ask for: tests 5 to 11. Of BITFIELD the subcommands are left to be read.
#[tactic(auto, unfolding(model::specs::Parse::parse))]
pub fn parse(words: &Words<'_, '_>, time: u64, form: Form) -> Result<Task, Refusal>
    requires { time ≤ time_limit }
    ensures { checked_parsed (words_in words.now) result ≡ parse (form_of form) time (words_in words.now) }
{
    match keyword::name_of(words.word(0))? {
        Named::Known(name) => parse_named(words, time, form, name),
        Named::Bitfield => parse_bitfield(words, form),
    }
}
