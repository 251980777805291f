// The numbers of the options of a command, and what the options say. The words of the numbers are parts of the borrowed command.
#![tactic(auto)]

ghost use Rattle.std.specs.Prelude.{◌≡◌, List, [], ℕ, ◌≤◌};
ghost use Rattle.model.specs.Checked.{ok};
ghost use Rattle.model.specs.Table.{time_limit};
ghost use Rattle.model.specs.Options.{Given as ModelGiven, lifetime_by, lifetime_in, change_by, change_in, flags_in, bound_in, numbers_in, ordered, presence_in, said_with, said_in};
ghost use Rattle.outcome.specs.Outcome.{to_model, checked};
ghost use Rattle.resp.specs.Held.{words_in};
ghost use Rattle.command.specs.Command.{model_presence, model_change, model_expire};
ghost use Rattle.command.specs.Words.{model_opt};
ghost use Rattle.expiry.specs.Expiry.{model_lifetime};
ghost use Rattle.options.specs.Options.{number_word, model_given, Tied};
ghost use Rattle.values.specs.Values.{model_numbers, model_said};

use command::{Change, Expire, Opt, Presence, Terms};
use expiry::{Lifetime, expire_in, expire_unsaid};
use options::{Given, Options};
use outcome::Refusal;
use resp::Words;

// What the options with numbers say.
#[derive(Clone, Copy)]
pub struct Numbers {
    pub lifetime: Lifetime,
    pub change: Change,
    pub flags: u32,
    pub min: Option<i64>,
    pub max: Option<i64>,
}

// What the options of a command say.
#[derive(Clone, Copy)]
pub struct Said {
    pub terms: Terms,
    pub flags: u32,
    pub min: Option<i64>,
    pub max: Option<i64>,
    pub non_negative: bool,
    pub with_version: bool,
    pub with_flags: bool,
}

// ---- the numbers

// The word of an option's number, empty where no number follows.
fn number_word<'s>(words: &Words<'s, '_>, g: Given) -> &'s [u8]
    ensures { result.now ≡ number_word (words_in words.now) g.word }
{
    match g.word {
        Some(i) => words.word(usize::from(i)),
        None => &[],
    }
}

// What an option says of the expiry; KEEPTTL is the one of the group that is no time word.
fn lifetime_by(opt: Opt, w: &[u8]) -> Result<Lifetime, Refusal>
    ensures { checked model_lifetime result ≡ lifetime_by (model_opt opt) w.now }
{
    let Opt::Time { unit, from_now } = opt else {
        return Ok(Lifetime::Kept);
    };
    let Some(number) = number::read_signed(w) else {
        return Err(Refusal::Number);
    };
    Ok(Lifetime::Until {
        unit,
        from_now,
        number,
    })
}

// What a time word or KEEPTTL says.
fn lifetime_in(words: &Words<'_, '_>, g: Option<Given>) -> Result<Lifetime, Refusal>
    ensures { checked model_lifetime result ≡ lifetime_in (model_given (words_in words.now) g) }
{
    let Some(g) = g else {
        return Ok(Lifetime::Unsaid);
    };
    lifetime_by(g.opt, number_word(words, g))
}

// The change of the version that VER or ABS asks for with the number `n`.
fn change_by(opt: Opt, n: u64) -> Change
    ensures { model_change result ≡ change_by (model_opt opt) n }
{
    match opt {
        Opt::Version { absolute: true } => Change::Set(n),
        Opt::Version { absolute: false } => Change::RaiseFrom(n),
        _ => Change::Raise,
    }
}

// What becomes of the version.
fn change_in(words: &Words<'_, '_>, g: Option<Given>) -> Result<Change, Refusal>
    ensures { checked model_change result ≡ change_in (model_given (words_in words.now) g) }
{
    let Some(g) = g else {
        return Ok(Change::Raise);
    };
    let Some(n) = number::read_version(number_word(words, g)) else {
        return Err(Refusal::Number);
    };
    Ok(change_by(g.opt, n))
}

// The flags that FLAGS sets.
fn flags_in(words: &Words<'_, '_>, g: Option<Given>) -> Result<u32, Refusal>
    ensures { checked (λ n. n) result ≡ flags_in (model_given (words_in words.now) g) }
{
    let Some(g) = g else {
        return Ok(0);
    };
    let Some(n) = number::read_flags(number_word(words, g)) else {
        return Err(Refusal::Number);
    };
    Ok(n as u32)
}

// The bound that MIN or MAX sets.
fn bound_in(words: &Words<'_, '_>, g: Option<Given>) -> Result<Option<i64>, Refusal>
    ensures { checked to_model result ≡ bound_in (model_given (words_in words.now) g) }
{
    let Some(g) = g else {
        return Ok(None);
    };
    let Some(z) = number::read_signed(number_word(words, g)) else {
        return Err(Refusal::Number);
    };
    Ok(Some(z))
}

// The numbers that the options of a command say: test 9.
#[tactic(auto, unfolding(model::specs::Options::numbers_in))]
fn numbers_in(words: &Words<'_, '_>, o: Options) -> Result<Numbers, Refusal>
    ensures { (gs : List ModelGiven) → Tied (words_in words.now) gs o → checked model_numbers result ≡ numbers_in gs }
{
    let lifetime = lifetime_in(words, o.groups[options::TIME])?;
    let change = change_in(words, o.groups[options::VERSION])?;
    let flags = flags_in(words, o.groups[options::FLAGS])?;
    let min = bound_in(words, o.groups[options::MIN])?;
    let max = bound_in(words, o.groups[options::MAX])?;
    Ok(Numbers {
        lifetime,
        change,
        flags,
        min,
        max,
    })
}

// ---- the bounds

// Whether MIN is not above MAX.
fn ordered(min: Option<i64>, max: Option<i64>) -> bool
    ensures { result ≡ ordered (to_model min) (to_model max) }
{
    let (Some(a), Some(b)) = (min, max) else {
        return true;
    };
    a <= b
}

// ---- what the options say

// The presence that NX or XX asks for.
fn presence_in(g: Option<Given>) -> Presence
    ensures { (ws : List (List ℕ)) → model_presence result ≡ presence_in (model_given ws g) }
{
    let Some(g) = g else {
        return Presence::Always;
    };
    match g.opt {
        Opt::Presence(p) => p,
        _ => Presence::Always,
    }
}

// What the options say, with their numbers read.
fn said_with(o: Options, x: Numbers, expire: Expire) -> Said
    ensures { (ws : List (List ℕ)) (gs : List ModelGiven) → Tied ws gs o → model_said result ≡ said_with gs (model_numbers x) (model_expire expire) }
{
    Said {
        terms: Terms {
            presence: presence_in(o.groups[options::PRESENCE]),
            change: x.change,
            expire,
        },
        flags: x.flags,
        min: x.min,
        max: x.max,
        non_negative: o.groups[options::NON_NEGATIVE].is_some(),
        with_version: o.groups[options::WITH_VERSION].is_some(),
        with_flags: o.groups[options::WITH_FLAGS].is_some(),
    }
}

// What a command without options says.
pub fn unsaid(keeps: bool) -> Said
    ensures { (time : ℕ) → ok (model_said result) ≡ said_in time keeps [] }
{
    Said {
        terms: Terms {
            presence: Presence::Always,
            change: Change::Raise,
            expire: expire_unsaid(keeps),
        },
        flags: 0,
        min: None,
        max: None,
        non_negative: false,
        with_version: false,
        with_flags: false,
    }
}

// What the options of a command say at the time `time`; where none says so, the expiry is kept or cleared: tests 9 to 11.
#[tactic(auto, unfolding(model::specs::Options::said_in))]
pub fn said_in(words: &Words<'_, '_>, time: u64, keeps: bool, o: Options) -> Result<Said, Refusal>
    requires { time ≤ time_limit }
    ensures { (gs : List ModelGiven) → Tied (words_in words.now) gs o → checked model_said result ≡ said_in time keeps gs }
{
    let x = numbers_in(words, o)?;
    let expire = expire_in(time, keeps, x.lifetime)?;
    if !ordered(x.min, x.max) {
        return Err(Refusal::Bounds);
    }
    Ok(said_with(o, x, expire))
}
