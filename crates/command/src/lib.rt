// A command by value: what it does, its name, its options and its subcommands, and the rule of each name. The key and the value stay in the borrowed bytes, as
// words 1 and 2.
#![tactic(auto)]

mod subcommand;

ghost use Rattle.std.specs.Prelude.{◌≡◌};
ghost use Rattle.model.specs.Command.{rule_of, bitfield_rule};
ghost use Rattle.command.specs.Words.{model_name};
ghost use Rattle.command.specs.Rules.{model_rule};

pub use subcommand::{Field, IntType, Mode, Operation, Sub, Subs};

// NX and XX.
#[derive(Clone, Copy)]
pub enum Presence {
    Always,
    IfAbsent,
    IfLive,
}

// What becomes of the version: one higher, one higher from this one only (VER), or this one (ABS).
#[derive(Clone, Copy)]
pub enum Change {
    Raise,
    RaiseFrom(u64),
    Set(u64),
}

// What becomes of the expiry.
#[derive(Clone, Copy)]
pub enum Expire {
    Clear,
    Keep,
    At(u64),
}

// The end of the stored value where EXAPPEND and EXPREPEND put their text.
#[derive(Clone, Copy)]
pub enum End {
    Back,
    Front,
}

// On what terms a value is written: NX or XX, VER or ABS, and what becomes of the expiry. They come first in every command that has them, so that
// they stand at one place whichever it is.
#[derive(Clone, Copy)]
pub struct Terms {
    pub presence: Presence,
    pub change: Change,
    pub expire: Expire,
}

// EXSET: how it stores, and whether it answers with the version.
#[derive(Clone, Copy)]
pub struct Set {
    pub terms: Terms,
    pub with_version: bool,
    pub flags: u32,
}

// EXINCRBY: what it adds, on what terms and within which bounds, and whether it answers with the version.
#[derive(Clone, Copy)]
pub struct Increment {
    pub terms: Terms,
    pub with_version: bool,
    pub non_negative: bool,
    pub by: i64,
    pub min: Option<i64>,
    pub max: Option<i64>,
}

// EXAPPEND and EXPREPEND: where the text goes, and on what terms.
#[derive(Clone, Copy)]
pub struct Join {
    pub terms: Terms,
    pub end: End,
}

// EXCAS: the version that the record must have, and what becomes of the expiry.
#[derive(Clone, Copy)]
pub struct Swap {
    pub version: u64,
    pub expire: Expire,
}

// What is to be done at the key, word 1 of the command, with the value, word 2, where there is one.
#[derive(Clone, Copy)]
pub enum Action {
    Exset(Set),
    Exget { with_flags: bool },
    Exsetver { version: u64 },
    Exincrby(Increment),
    Excas(Swap),
    Excad { version: u64 },
    // EXAPPEND and EXPREPEND
    Exjoin(Join),
    Exgae { expire: Expire },
    Del,
}

// What a command asks for: an action, or BITFIELD, whose subcommands are still to be read. They stand in no action, since
// every action would then be as large as they are.
#[derive(Clone, Copy)]
pub enum Task {
    Action(Action),
    Bitfield,
}

// ---- names and option words

// The names of the commands with options.
#[derive(Clone, Copy)]
pub enum Name {
    Exset,
    Exget,
    Exsetver,
    Exincrby,
    Excas,
    Excad,
    Exappend,
    Exprepend,
    Exgae,
    Del,
}

// The command that a word names: one with options, or BITFIELD, which has subcommands.
#[derive(Clone, Copy)]
pub enum Named {
    Known(Name),
    Bitfield,
}

// The names of subcommands.
#[derive(Clone, Copy)]
pub enum SubName {
    Get,
    Set,
    Incrby,
    Overflow,
}

// Options that hold no choice.
#[derive(Clone, Copy)]
pub enum Plain {
    KeepTtl,
    Flags,
    Min,
    Max,
    NonNegative,
    WithVersion,
    WithFlags,
}

// An option. A time word has its unit in milliseconds; EX and PX count from the call's time.
#[derive(Clone, Copy)]
pub enum Opt {
    Time { unit: u16, from_now: bool },
    Presence(Presence),
    Version { absolute: bool },
    Plain(Plain),
}

// ---- the rule of a command

// What number a fixed word is.
#[derive(Clone, Copy)]
pub enum NumberKind {
    Signed,
    Version,
}

// The fixed words, the name counted; whether more are refused; whether the third is a value; what number the last fixed word is, if any; the kinds
// of options, one bit for each; whether a time word is needed; whether the expiry is kept where no option says.
#[derive(Clone, Copy)]
pub struct Rule {
    pub fixed: usize,
    pub exact: bool,
    pub valued: bool,
    pub number: Option<NumberKind>,
    pub kinds: u16,
    pub timed: bool,
    pub keeps: bool,
}

// The kinds of options, as bits: bit n is that of the model's kind n. A rule is copied at each command, and a set of bits is tested by one shift.
const TIME: u16 = 1;

const KEEP_TTL: u16 = 2;

const PRESENCE: u16 = 4;

const VERSION: u16 = 8;

const FLAGS: u16 = 16;

const MIN: u16 = 32;

const MAX: u16 = 64;

const NON_NEGATIVE: u16 = 128;

const WITH_VERSION: u16 = 256;

const WITH_FLAGS: u16 = 512;

// ---- the rule of each command

const EXSET: Rule = Rule {
    fixed: 3,
    exact: false,
    valued: true,
    number: None,
    kinds: TIME | PRESENCE | VERSION | FLAGS | WITH_VERSION,
    timed: false,
    keeps: false,
};

const EXGET: Rule = Rule {
    fixed: 2,
    exact: false,
    valued: false,
    number: None,
    kinds: WITH_FLAGS,
    timed: false,
    keeps: false,
};

// EXSETVER and EXCAD.
const VERSIONED: Rule = Rule {
    fixed: 3,
    exact: true,
    valued: false,
    number: Some(NumberKind::Version),
    kinds: 0,
    timed: false,
    keeps: false,
};

const EXINCRBY: Rule = Rule {
    fixed: 3,
    exact: false,
    valued: false,
    number: Some(NumberKind::Signed),
    kinds: TIME | PRESENCE | VERSION | MIN | MAX | NON_NEGATIVE | WITH_VERSION,
    timed: false,
    keeps: true,
};

const EXCAS: Rule = Rule {
    fixed: 4,
    exact: false,
    valued: true,
    number: Some(NumberKind::Version),
    kinds: TIME | KEEP_TTL,
    timed: false,
    keeps: false,
};

// EXAPPEND and EXPREPEND.
const JOINED: Rule = Rule {
    fixed: 3,
    exact: false,
    valued: true,
    number: None,
    kinds: PRESENCE | VERSION,
    timed: false,
    keeps: true,
};

const EXGAE: Rule = Rule {
    fixed: 2,
    exact: false,
    valued: false,
    number: None,
    kinds: TIME,
    timed: true,
    keeps: false,
};

const DEL: Rule = Rule {
    fixed: 2,
    exact: true,
    valued: false,
    number: None,
    kinds: 0,
    timed: false,
    keeps: false,
};

const BITFIELD: Rule = Rule {
    fixed: 2,
    exact: false,
    valued: false,
    number: None,
    kinds: 0,
    timed: false,
    keeps: true,
};

// The rule of BITFIELD, as far as its fixed words go.
pub fn bitfield_rule() -> Rule
    ensures { model_rule result ≡ bitfield_rule }
{
    BITFIELD
}

// The rule of a command.
pub fn rule_of(name: Name) -> Rule
    ensures { model_rule result ≡ rule_of (model_name name) }
{
    match name {
        Name::Exset => EXSET,
        Name::Exget => EXGET,
        Name::Exsetver | Name::Excad => VERSIONED,
        Name::Exincrby => EXINCRBY,
        Name::Excas => EXCAS,
        Name::Exappend | Name::Exprepend => JOINED,
        Name::Exgae => EXGAE,
        Name::Del => DEL,
    }
}
