// The part of a table that a call means: the whole, the owner's records or the installer's.
#![tactic(auto)]

mod slots;

ghost use Rattle.std.specs.Prelude.{◌≡◌, cond, Ok, Err};
ghost use Rattle.model.specs.Optional.{is_some};
ghost use Rattle.model.specs.Table.{form128, read_table};
ghost use Rattle.model.specs.Gate.{good_part};
ghost use Rattle.outcome.specs.declared.Refusal.TheVariants.{Damaged};
ghost use Rattle.integrity.specs.Check.{faultless};
ghost use Rattle.partition.specs.Parts.{model_view, refusal_of, number_in, Cuts, Finds};

use outcome::Refusal;
use record::Form;
pub use slots::{meets_at, slots_of};

// Who calls; `Whole` is a call without a boundary. The owner has the records below the boundary, the installer the rest.
#[derive(Clone, Copy)]
pub enum Party {
    Whole,
    Owner,
    Installer,
}

// Which part of a table a call means. The boundary is counted in records; for the whole table it is not looked at.
#[derive(Clone, Copy)]
pub struct View {
    pub party: Party,
    pub boundary: usize,
}

// The part of a call, by the places of its first byte and behind its last.
#[derive(Clone, Copy)]
pub struct Part {
    pub start: usize,
    pub end: usize,
}

// Whether the length and each record of a table keep the rules. A record is tested as a table of its own, so that no keys are compared.
fn reads(table: &[u8]) -> bool
    ensures { result ≡ is_some (read_table form128 table.now) }
{
    let form = Form::Of128;
    if !integrity::has_size(table, form) {
        return false;
    }
    for i in (0..table::count(table, form)).rev() {
        if !entry::passes(table::slot(table, form, i)) {
            return false;
        }
    }
    true
}

// Where the boundary stands in the table's bytes. A table whose length or records break the rules is refused before a bad boundary; where the
// boundary is good, the records are tested with their part.
fn place_of(table: &[u8], boundary: usize) -> Result<usize, Refusal>
    ensures { Cuts form128 boundary table.now result }
{
    let form = Form::Of128;
    let good = (1 <= boundary) & (boundary < table::count(table, form));
    if !good {
        return Err(if reads(table) {
            Refusal::Boundary
        } else {
            Refusal::Damaged
        });
    }
    if integrity::has_size(table, form) {
        return Ok(boundary * record::size(form));
    }
    Err(Refusal::Damaged)
}

// A part, if the other one is good.
fn beside(other: &[u8], part: Part) -> Result<Part, Refusal>
    ensures { result ≡ cond (faultless form128 other.now) (Ok part) (Err Damaged) }
{
    if entry::passes(other) {
        Ok(part)
    } else {
        Err(Refusal::Damaged)
    }
}

// Finds the caller's part. Its own tests are left to whoever works on it; the other party's part is tested here.
pub fn part_in(table: &[u8], view: View) -> Result<Part, Refusal>
    ensures { Finds form128 view table.now result }
{
    let len = table.len();
    match view.party {
        Party::Whole => Ok(Part { start: 0, end: len }),
        Party::Owner => {
            let place = place_of(table, view.boundary)?;
            let part = Part {
                start: 0,
                end: place,
            };
            beside(&table[place..], part)
        }
        Party::Installer => {
            let place = place_of(table, view.boundary)?;
            let part = Part {
                start: place,
                end: len,
            };
            beside(&table[..place], part)
        }
    }
}

// Why every call on a part is refused before its time is looked at, if it is.
pub fn refusal(table: &[u8], view: View) -> Option<Refusal>
    ensures { number_in result ≡ refusal_of (good_part form128 (model_view view) table.now) }
{
    match part_in(table, view) {
        Err(refusal) => Some(refusal),
        Ok(part) if entry::passes(&table[part.start..part.end]) => None,
        Ok(_) => Some(Refusal::Damaged),
    }
}
