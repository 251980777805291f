// The values of options.
ghost use Rattle.std.specs.Prelude.{◌≡◌, ◌≤◌, length, IfOk, IfSome};
ghost use Rattle.outcome.specs.Outcome.{from_model};
ghost use Rattle.commandline.specs.Switches.{read_records};

use std::env::{Env, FillError};

// The table's file where none is named.
const NAME: &[u8] = b"pietrunel.table";

// The number that a text means, from 1 to 256.
fn read_records(s: &[u8]) -> Option<u64>
    ensures value { result ≡ from_model (read_records s.now) }
    ensures few { IfSome result (λ n. n ≤ 256) }
{
    let n = number::read_version(s)?;
    let fits = 1 <= n && n <= 256;
    fits.then_some(n)
}

// The number below 2^63 that the argument at a place means.
pub fn number_at(rt: &impl Env, place: usize) -> Option<u64> {
    let mut word = [0u8; 32];
    let n = rt.arg(place, &mut word).ok()?;
    number::read_version(&word[..n])
}

// The number of records that the argument at a place means.
// Kept: beside `number_at`, since one function of both would take the reader, and a clause that it may be called, and is no plainer.
pub fn records_at(rt: &impl Env, place: usize) -> Option<u64>
    ensures { IfSome result (λ n. n ≤ 256) }
{
    let mut word = [0u8; 32];
    let n = rt.arg(place, &mut word).ok()?;
    read_records(&word[..n])
}

// The path at a place, which is put in a buffer, or that of the table where no place is given; or says that there is none or that it is too long.
pub fn path_at<'a>(
    rt: &impl Env,
    place: Option<usize>,
    out: &'a mut [u8; 4096],
) -> Result<&'a [u8], FillError>
    ensures { IfOk result (λ p. length p.now ≤ 4096) }
{
    let Some(place) = place else {
        return Ok(NAME);
    };
    let n = rt.arg(place, out)?;
    Ok(&out[..n])
}
