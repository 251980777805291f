// The record under a command's key, live or expired, and what a write makes of its version, flags and expiry. Nothing here writes.
#![tactic(auto)]

ghost use Rattle.std.specs.Prelude.{ℕ, ◌≡◌};
ghost use Rattle.outcome.specs.Outcome.{to_model, checked};
ghost use Rattle.std.proofs.Math.Option.{Option, some};
ghost use Rattle.model.specs.Checked.{Checked};
ghost use Rattle.model.specs.Command.{raise};
ghost use Rattle.model.specs.Execute.{Effect, version_after, flags_after, expiry_after, allowed, agrees, one_higher, admit};
ghost use Rattle.record.specs.Forms.{form_of};
ghost use Rattle.command.specs.Command.{model_presence, model_change, model_expire, model_terms};
ghost use Rattle.table.specs.Slots.{Reads};
ghost use Rattle.index.specs.Index.{Indexed};
ghost use Rattle.live.specs.Under.{IsUnder, stored_in, stored_of};
ghost use Rattle.live.specs.After.{admitted};

use command::{Change, Expire, Presence, Terms};
use outcome::Refusal;
use record::{Attributes, Form};

// What stands under a key: a live record, an expired one, or none.
#[derive(Clone, Copy)]
pub enum Lookup {
    Live { slot: usize, attributes: Attributes },
    Expired { slot: usize },
    Absent,
}

impl Lookup {
    // The attributes of the live record.
    pub fn attributes(self) -> Option<Attributes>
        ensures { stored_in self ≡ stored_of result }
    {
        match self {
            Lookup::Live { attributes, .. } => Some(attributes),
            Lookup::Expired { .. } | Lookup::Absent => None,
        }
    }
}

// Where a command works: the form of the records, the time, and what stands under its key.
#[derive(Clone, Copy)]
pub struct Target {
    pub form: Form,
    pub time: u64,
    pub found: Lookup,
}

// What NX, XX and VER let a write do: go on, answer nil, or be refused as stale.
#[derive(Clone, Copy)]
pub enum Admission {
    Granted,
    Nil,
    Stale,
}

// The one search for a command's key, by the index that the check of the table left.
pub fn look_up(table: &[u8], form: Form, time: u64, key: &[u8], heads: &[u8], next: &[u8]) -> Lookup
    requires reads { Reads (form_of form) table.now }
    requires indexed { Indexed (form_of form) table.now 0 heads.now next.now }
    ensures { IsUnder (form_of form) table.now time key.now result }
{
    let Some(slot) = index::find(table, form, key, heads, next) else {
        return Lookup::Absent;
    };
    let r = table::record_at(table, form, slot);
    let attributes = record::attributes_of(r);
    if record::is_live(r, time) {
        return Lookup::Live { slot, attributes };
    }
    Lookup::Expired { slot }
}

// A version one higher; a refusal where it is the highest.
fn one_higher(version: u64) -> Result<u64, Refusal>
    ensures { checked (λ n. n) result ≡ one_higher version }
{
    if version < record::VERSION_LIMIT - 1 {
        return Ok(version + 1);
    }
    Err(Refusal::Version)
}

// The version that a write without ABS stores: 1 under an absent key, else one higher.
fn risen(found: Lookup) -> Result<u64, Refusal>
    ensures { (e : Option ℕ) → checked (λ n. n) result ≡ version_after (raise e) (stored_in found) }
{
    match found.attributes() {
        Some(attributes) => one_higher(attributes.version),
        None => Ok(1),
    }
}

// The version after a write: the one that ABS gives, else a risen one.
pub fn version_after(found: Lookup, change: Change) -> Result<u64, Refusal>
    ensures { checked (λ n. n) result ≡ version_after (model_change change) (stored_in found) }
{
    match change {
        Change::Set(version) => Ok(version),
        Change::Raise | Change::RaiseFrom(_) => risen(found),
    }
}

// The flags after a write: those given, else those stored, else 0.
pub fn flags_after(found: Lookup, flags: Option<u32>) -> u32
    ensures { result ≡ flags_after (to_model flags) (stored_in found) }
{
    let stored = found.attributes().map_or(0, |a| a.flags);
    flags.unwrap_or(stored)
}

// The expiry after a write: the one given, or the one stored where it is kept, else none.
pub fn expiry_after(found: Lookup, expire: Expire) -> u64
    ensures { result ≡ expiry_after (model_expire expire) (stored_in found) }
{
    match expire {
        Expire::Clear => 0,
        Expire::At(expiry) => expiry,
        Expire::Keep => found.attributes().map_or(0, |a| a.expiry),
    }
}

// Whether NX or XX lets a write pass.
fn allowed(found: Lookup, presence: Presence) -> bool
    ensures { result ≡ allowed (model_presence presence) (stored_in found) }
{
    match presence {
        Presence::Always => true,
        Presence::IfAbsent => found.attributes().is_none(),
        Presence::IfLive => found.attributes().is_some(),
    }
}

// Whether the version is that of the live record. An absent key has none to compare.
fn has_version(found: Lookup, version: u64) -> bool
    ensures { result ≡ agrees (raise (some version)) (stored_in found) }
{
    found.attributes().is_none_or(|a| version == a.version)
}

// Whether VER, if it is given, names the live record's version.
fn agrees(found: Lookup, change: Change) -> bool
    ensures { result ≡ agrees (model_change change) (stored_in found) }
{
    match change {
        Change::Raise | Change::Set(_) => true,
        Change::RaiseFrom(expected) => has_version(found, expected),
    }
}

// Tests NX and XX, and after them VER.
pub fn admit(found: Lookup, terms: Terms) -> Admission
    ensures { (next : Checked Effect) → admitted result next ≡ admit (model_terms terms) (stored_in found) next }
{
    let presence = terms.presence;
    let change = terms.change;
    let allowed = allowed(found, presence);
    let agrees = agrees(found, change);
    if !allowed {
        return Admission::Nil;
    }
    if !agrees {
        return Admission::Stale;
    }
    Admission::Granted
}
