// A new table.
use crate::failure::Failure;
use crate::host::Host;
use crate::keeper::{Grant, ask, let_go};
use record::Form;
use status::DONE;
use tablefile::{NotLoaded, SPACE, load, replace};

// The most records.
const MOST: u64 = 256;

// Writes a table of empty records. More than a table can have were told where their number was read.
fn make(rt: &impl Host, path: &[u8], grant: Grant, records: u64) -> Result<u64, Failure<'static>> {
    if MOST < records {
        return Err(Failure::Told);
    }
    let zeros = [0u8; SPACE];
    let size = records as usize * record::size(Form::Of128);
    if replace(rt, path, grant.rights, &zeros[..size]) {
        return Ok(DONE);
    }
    Err(Failure::Told)
}

// Makes a new table while no other run can, and refuses where its file is there.
fn init_alone<'a>(
    rt: &impl Host,
    path: &'a [u8],
    grant: Grant,
    records: u64,
) -> Result<u64, Failure<'a>> {
    let mut table = [0u8; SPACE];
    match load(rt, path, &mut table) {
        Ok(_) => Err(Failure::File(path, "is there already")),
        Err(NotLoaded::Missing) => make(rt, path, grant, records),
        Err(NotLoaded::Told) => Err(Failure::Told),
    }
}

// Makes a new table. Why it is not made is told while no other run can make one.
pub fn init(rt: &impl Host, path: &[u8], records: u64) -> Result<u64, Failure<'static>> {
    let grant = ask()?;
    let status = match init_alone(rt, path, grant, records) {
        Ok(status) => status,
        Err(failure) => failure.tell(rt),
    };
    let_go();
    Ok(status)
}
