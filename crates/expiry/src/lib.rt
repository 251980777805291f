// What becomes of the expiry: test 10.
#![tactic(auto)]

ghost use Rattle.std.specs.Prelude.{◌≡◌, false, true, cond, ℕ, ◌+◌, ◌*◌, ◌≤◌, leb};
ghost use Rattle.model.specs.Checked.{ok};
ghost use Rattle.model.specs.Table.{time_limit};
ghost use Rattle.model.specs.Options.{unsaid, until, expire_in};
ghost use Rattle.command.specs.Command.{model_expire};
ghost use Rattle.expiry.specs.Expiry.{model_lifetime};
ghost use Rattle.outcome.specs.Outcome.{checked};

use command::Expire;
use outcome::Refusal;
use record::TIME_LIMIT;

// What is said of the expiry: nothing, KEEPTTL, or a time word with its number.
#[derive(Clone, Copy)]
pub enum Lifetime {
    Unsaid,
    Kept,
    Until {
        unit: u16,
        from_now: bool,
        number: i64,
    },
}

// Whether `n` units after `from` is at most 2^62. The product may not fit: that of the upper half of `n` tells.
fn in_time(from: u64, unit: u16, n: u64) -> bool
    requires { from ≤ time_limit }
    ensures { result ≡ leb (from + unit * n) time_limit }
{
    let upper = unit as u64 * (n >> 32);
    if TIME_LIMIT >> 32 < upper {
        return false;
    }
    unit as u64 * n <= TIME_LIMIT - from
}

// The expiry `z` units after `from`, from 1 unit on.
fn expiry(from: u64, unit: u16, z: i64) -> Result<Expire, Refusal>
    requires { from ≤ time_limit }
    ensures { checked model_expire result ≡ expire_in from false (until unit true z) }
{
    if z < 1 {
        return Err(Refusal::Expiry);
    }
    let n = z as u64;
    if !in_time(from, unit, n) {
        return Err(Refusal::Expiry);
    }
    Ok(Expire::At(from + unit as u64 * n))
}

// The time that a time word counts from.
fn start(time: u64, from_now: bool) -> u64
    ensures { result ≡ cond from_now time 0 }
{
    if from_now {
        return time;
    }
    0
}

// What becomes of the expiry where no option says so.
pub fn expire_unsaid(keeps: bool) -> Expire
    ensures { (time : ℕ) → ok (model_expire result) ≡ expire_in time keeps unsaid }
{
    if keeps {
        return Expire::Keep;
    }
    Expire::Clear
}

// What becomes of the expiry at the time `time`: test 10.
pub fn expire_in(time: u64, keeps: bool, lifetime: Lifetime) -> Result<Expire, Refusal>
    requires { time ≤ time_limit }
    ensures { checked model_expire result ≡ expire_in time keeps (model_lifetime lifetime) }
{
    match lifetime {
        Lifetime::Unsaid => Ok(expire_unsaid(keeps)),
        Lifetime::Kept => Ok(Expire::Keep),
        Lifetime::Until {
            unit,
            from_now,
            number,
        } => expiry(start(time, from_now), unit, number),
    }
}
