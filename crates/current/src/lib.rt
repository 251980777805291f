// The current value of a key after an EXGET or EXCAS, found without doing the command: a part of the table or of the command.
#![tactic(auto)]

ghost use Rattle.std.specs.Prelude.{◌≤◌, ◌≡◌, Some};
ghost use Rattle.model.specs.Table.{form128};
ghost use Rattle.model.specs.CurrentValue.{current_value};
ghost use Rattle.record.specs.Forms.{form_of};
ghost use Rattle.table.specs.Slots.{Reads, InUseAt};
ghost use Rattle.live.specs.Under.{Sound, shape_of};
ghost use Rattle.resp.specs.Spans.{span_at};
ghost use Rattle.resp.specs.Held.{words_in};
ghost use Rattle.current.specs.Shows.{model_shown, Shows};
ghost use Rattle.current.specs.Current.{stored_at, swapped_to, shown_by, ActionAt};

use command::{Action, Change, Task};
use entry::Query;
use live::{Lookup, Target};
use record::Form;
use resp::{Span, Words};

// Where a value begins, and how long it is.
#[derive(Clone, Copy)]
pub enum Shown {
    InTable { start: usize, len: usize },
    InCommand { start: usize, len: usize },
}

// The value of the record in use at a slot.
fn stored(table: &[u8], form: Form, slot: usize) -> Shown
    requires reads { Reads (form_of form) table.now }
    requires in_use_at { InUseAt (form_of form) table.now slot }
    ensures { model_shown (Some result) ≡ stored_at (form_of form) table.now slot }
{
    let len = record::value(table::record_at(table, form, slot)).len();
    let start = table::start(table.len(), form, slot) + record::VALUE_AT;
    Shown::InTable { start, len }
}

// The value of an EXCAS on the live record's own version; none where that is the highest.
fn swapped(found: Lookup, value: Span) -> Option<Shown>
    requires { value.start ≤ value.end }
    ensures { model_shown result ≡ swapped_to found value }
{
    let Ok(_) = live::version_after(found, Change::Raise) else {
        return None;
    };
    let start = value.start as usize;
    let end = value.end as usize;
    Some(Shown::InCommand {
        start,
        len: end - start,
    })
}

// What an action of a command's words shows.
fn shown_by(table: &[u8], target: Target, action: Action, words: &Words<'_, '_>) -> Option<Shown>
    requires sound { Sound (shape_of target) table.now target.found }
    requires action_at { ActionAt action (words_in words.now) }
    ensures { model_shown result ≡ shown_by table.now target action (span_at 2 (words_in words.now)) }
{
    let found = target.found;
    let form = target.form;
    let Lookup::Live { slot, attributes } = found else {
        return None;
    };
    match action {
        Action::Exget { with_flags: _ } => Some(stored(table, form, slot)),
        Action::Excas(swap) => {
            if swap.version != attributes.version {
                return Some(stored(table, form, slot));
            }
            swapped(found, words.span(2))
        }
        _ => None,
    }
}

// Where the current value of a command stands, if it shows one. A refusal shows none.
pub fn locate(table: &[u8], time: u64, command: &[u8]) -> Option<Shown>
    ensures { model_shown result ≡ current_value form128 table.now time command.now }
{
    let form = Form::Of128;
    let room = record::room(form);
    let query = Query { time, room };
    let mut places = [0u16; 32];
    let Ok(ready) = entry::prepare(table, query, command, &mut places) else {
        return None;
    };
    let Task::Action(action) = ready.task else {
        return None;
    };
    let found = ready.found;
    let target = Target { form, time, found };
    shown_by(table, target, action, &ready.words)
}

// The value at the key after an EXGET or EXCAS, as a part of the command where the EXCAS would succeed, else of the table. Where none is shown,
// the table's first zero bytes. Kept: `shown` beside the part, since document 01 asks for that part too.
pub fn current_value<'a>(
    table: &'a [u8],
    time: u64,
    command: &'a [u8],
    shown: &mut bool,
) -> &'a [u8]
    ensures { Shows table.entry command.entry (current_value form128 table.now time command.now) result shown.new }
{
    let Some(found) = locate(table, time, command) else {
        *shown = false;
        return &table[..0];
    };
    *shown = true;
    match found {
        Shown::InCommand { start, len } => &command[start..start + len],
        Shown::InTable { start, len } => &table[start..start + len],
    }
}
