// The options of a command: which are given, at most one of each group. Kinds and groups go by the model's numbers.
#![tactic(auto)]

ghost use Rattle.std.specs.Prelude.{◌≡◌, ◌<◌, List, ℕ, length, drop};
ghost use Rattle.model.specs.Command.{kind_no, opt_rule_of};
ghost use Rattle.model.specs.Options.{Given as ModelGiven, takes, enough, options_in};
ghost use Rattle.resp.specs.Held.{words_in};
ghost use Rattle.command.specs.Words.{model_opt};
ghost use Rattle.command.specs.Rules.{model_rule};
ghost use Rattle.options.specs.Options.{Tied, Takes, Collects};

use command::{Opt, Plain, Rule};
use outcome::Refusal;
use resp::Words;

// The groups of options.
pub const TIME: usize = 0;

pub const PRESENCE: usize = 2;

pub const VERSION: usize = 3;

pub const FLAGS: usize = 4;

pub const MIN: usize = 5;

pub const MAX: usize = 6;

pub const NON_NEGATIVE: usize = 7;

pub const WITH_VERSION: usize = 8;

pub const WITH_FLAGS: usize = 9;

// The kind of KEEPTTL, which is of the group of the time words.
const KEEP_TTL: usize = 1;

// An option, and the number of the word of its number, if one follows it.
#[derive(Clone, Copy)]
pub struct Given {
    pub opt: Opt,
    pub word: Option<u8>,
}

// The options of a command, by the numbers of their groups.
#[derive(Clone, Copy)]
pub struct Options {
    pub groups: [Option<Given>; 10],
}

// An option, and the number of the word after it and its number.
#[derive(Clone, Copy)]
struct Taken {
    given: Given,
    next: usize,
}

// The number of the kind of an option.
fn kind_of(opt: Opt) -> usize
    ensures { result ≡ kind_no (opt_rule_of (model_opt opt)).kind }
{
    match opt {
        Opt::Time { .. } => TIME,
        Opt::Presence(_) => PRESENCE,
        Opt::Version { .. } => VERSION,
        Opt::Plain(p) => match p {
            Plain::KeepTtl => KEEP_TTL,
            Plain::Flags => FLAGS,
            Plain::Min => MIN,
            Plain::Max => MAX,
            Plain::NonNegative => NON_NEGATIVE,
            Plain::WithVersion => WITH_VERSION,
            Plain::WithFlags => WITH_FLAGS,
        },
    }
}

// The number of the group of an option: that of its kind, but KEEPTTL is of that of the time words.
// Kept: a second table beside that of the kinds, each as the options' rules have it. Made from the kind it needs a test of KEEPTTL and is no plainer.
fn group_of(opt: Opt) -> usize
    ensures { result ≡ kind_no (opt_rule_of (model_opt opt)).group }
{
    match opt {
        Opt::Time { .. } => TIME,
        Opt::Presence(_) => PRESENCE,
        Opt::Version { .. } => VERSION,
        Opt::Plain(p) => match p {
            Plain::KeepTtl => TIME,
            Plain::Flags => FLAGS,
            Plain::Min => MIN,
            Plain::Max => MAX,
            Plain::NonNegative => NON_NEGATIVE,
            Plain::WithVersion => WITH_VERSION,
            Plain::WithFlags => WITH_FLAGS,
        },
    }
}

// Whether a number follows an option.
fn numbered(opt: Opt) -> bool
    ensures { result ≡ (opt_rule_of (model_opt opt)).numbered }
{
    match opt {
        Opt::Time { .. } | Opt::Version { .. } => true,
        Opt::Plain(Plain::Flags | Plain::Min | Plain::Max) => true,
        _ => false,
    }
}

// Whether a command takes an option.
fn takes(rule: Rule, opt: Opt) -> bool
    ensures { result ≡ takes (model_rule rule).kinds (opt_rule_of (model_opt opt)).kind }
{
    (rule.kinds >> kind_of(opt)) & 1 == 1
}

// The option that word `i` spells, which must be one that the command takes, and the word after it if a number follows, which must be there.
fn take_option(words: &Words<'_, '_>, rule: Rule, i: usize) -> Result<Taken, Refusal>
    requires { i < length (words_in words.now) }
    ensures { Takes (model_rule rule) (words_in words.now) i result }
{
    let count = words.len();
    let opt = keyword::option_of(words.word(i))?;
    let number = i + 1;
    if !takes(rule, opt) {
        return Err(Refusal::Syntax);
    }
    if !numbered(opt) {
        let given = Given { opt, word: None };
        return Ok(Taken {
            given,
            next: number,
        });
    }
    if count <= number {
        return Err(Refusal::Syntax);
    }
    let given = Given {
        opt,
        word: Some(number as u8),
    };
    Ok(Taken {
        given,
        next: number + 1,
    })
}

// Whether a time word is given where one is needed.
fn enough(rule: Rule, o: Options) -> bool
    ensures { (ws : List (List ℕ)) (gs : List ModelGiven) → Tied ws gs o → result ≡ enough (model_rule rule) gs }
{
    !rule.timed | o.groups[TIME].is_some()
}

// The options of a command, which stand after the fixed words.
pub fn options_in(words: &Words<'_, '_>, rule: Rule) -> Result<Options, Refusal>
    ensures { Collects (words_in words.now) (options_in (model_rule rule) (drop rule.fixed (words_in words.now))) result }
{
    let mut options = Options { groups: [None; 10] };
    let mut i = rule.fixed;
    // Kept: an option is one word or two, so that the loop has no range to go over
    while i < words.len() {
        let Taken { given, next } = take_option(words, rule, i)?;
        let group = group_of(given.opt);
        if options.groups[group].is_some() {
            return Err(Refusal::Syntax);
        }
        options.groups[group] = Some(given);
        i = next;
    }
    if enough(rule, options) {
        return Ok(options);
    }
    Err(Refusal::Syntax)
}
