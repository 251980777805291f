// A command taken through the gate, with the arrays for the index of the table's keys lent. Kept: two arrays of different lengths, since the library has no heap.
ghost use Rattle.std.specs.Prelude.{◌≡◌, length};
ghost use Rattle.model.specs.Table.{form128};
ghost use Rattle.integrity.specs.Check.{Fresh};
ghost use Rattle.entry.specs.Gated.{Prepares};

use crate::{NotReady, Query, Ready, gate};
use record::Form;

// Takes a command through the gate, parses it and looks its key up.
pub fn prepare<'s, 'p>(
    table: &[u8],
    query: Query,
    command: &'s [u8],
    places: &'p mut [u16; 32],
    heads: &mut [u8],
    next: &mut [u8],
) -> Result<Ready<'s, 'p>, NotReady>
    requires places_len { length places.old ≡ 32 }
    requires fresh { Fresh form128 table.now heads.old next.old }
    ensures { Prepares query table.now command.now result }
{
    let form = Form::Of128;
    let time = query.time;
    let words = gate(table, query, command, places, heads, next).map_err(NotReady::Silent)?;
    let task = parse::parse(&words, time, form).map_err(NotReady::Told)?;
    // so no contract need say that a parsed command has a key
    let key = words.word(1);
    let found = live::look_up(table, form, time, key, heads, next);
    Ok(Ready { task, found, words })
}
