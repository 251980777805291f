// The options of a command line, by their places among the arguments.
ghost use Rattle.std.specs.Prelude.{◌≡◌};
ghost use Rattle.commandline.specs.Lines.{noted, is_last};

use crate::switch::{Switch, switch_of, takes_value};
use std::env::{Env, FillError};

// The place of each option's value, or of the option where it takes none. Of two, the last counts. The words of the command begin at `words`,
// which is the count of the arguments where there are none.
#[derive(Clone, Copy, Default)]
pub struct Line {
    pub table: Option<usize>,
    pub time: Option<usize>,
    pub init: Option<usize>,
    pub owner: Option<usize>,
    pub installer: Option<usize>,
    pub list: Option<usize>,
    pub check: Option<usize>,
    pub diff: Option<usize>,
    pub keeper: Option<usize>,
    pub unknown: Option<usize>,
    pub words: usize,
}

// Whether there is an argument at a place.
fn is_there(rt: &impl Env, at: usize) -> bool {
    let mut word = [0u8; 1];
    !matches!(rt.arg(at, &mut word), Err(FillError::NotPresent))
}

// How many arguments there are; the program's name is the first.
pub fn count_arguments(rt: &impl Env) -> usize {
    for at in 0..usize::MAX {
        if !is_there(rt, at) {
            return at;
        }
    }
    usize::MAX
}

// The option at a place. An argument of more than 4,096 bytes is no option.
fn switch_at(rt: &impl Env, at: usize) -> Switch {
    let mut word = [0u8; 4096];
    match rt.arg(at, &mut word) {
        Ok(n) => switch_of(&word[..n]),
        Err(_) => Switch::Word,
    }
}

// A line with the option at a place added; its value is the argument after it.
fn noted(mut line: Line, switch: Switch, at: usize, value: usize) -> Line
    ensures { result ≡ noted line switch at value }
{
    match switch {
        Switch::Table => line.table = Some(value),
        Switch::Time => line.time = Some(value),
        Switch::Init => line.init = Some(value),
        Switch::Owner => line.owner = Some(value),
        Switch::Installer => line.installer = Some(value),
        Switch::List => line.list = Some(at),
        Switch::Check => line.check = Some(at),
        Switch::Diff => line.diff = Some(at),
        Switch::Keeper => line.keeper = Some(at),
        Switch::End => line.words = value,
        Switch::Unknown => line.unknown = Some(at),
        Switch::Word => line.words = at,
    }
    line
}

// Whether no option follows an argument: it is the first word of a command, or stands before it.
fn is_last(switch: Switch) -> bool
    ensures { result ≡ is_last switch }
{
    matches!(switch, Switch::End | Switch::Word)
}

// The options among the first `count` arguments, up to the first word.
pub fn read_line(rt: &impl Env, count: usize) -> Line {
    let mut line = Line {
        words: count,
        ..Line::default()
    };
    let mut places = 1..count;
    while let Some(at) = places.next() {
        let switch = switch_at(rt, at);
        line = noted(line, switch, at, at + 1);
        if is_last(switch) {
            break;
        }
        if takes_value(switch) {
            let _ = places.next();
        }
    }
    line
}
