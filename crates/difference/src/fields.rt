// The fields in which two records differ.
ghost use Rattle.std.specs.Prelude.{◌≡◌, []};
ghost use Rattle.model.specs.Table.{fields};
ghost use Rattle.model.specs.Difference.{fields_apart};
ghost use Rattle.record.specs.Record.{InUse};
ghost use Rattle.difference.specs.Lines.{fields_of, is_none};

// Whether each field differs.
#[derive(Clone, Copy)]
pub struct Fields {
    pub value: bool,
    pub version: bool,
    pub flags: bool,
    pub expiry: bool,
}

// No field, for a key that stands in one table alone.
pub fn no_field() -> Fields
    ensures { fields_of result ≡ [] }
{
    Fields {
        value: false,
        version: false,
        flags: false,
        expiry: false,
    }
}

// The fields in which two records in use differ.
pub fn fields_apart(r: &[u8], q: &[u8]) -> Fields
    requires { InUse r.now × InUse q.now }
    ensures { fields_of result ≡ fields_apart (fields r.now) (fields q.now) }
{
    let value = !slice::same(record::value(r), record::value(q));
    let version = record::version(r) != record::version(q);
    let flags = record::flags(r) != record::flags(q);
    let expiry = record::expiry(r) != record::expiry(q);
    Fields {
        value,
        version,
        flags,
        expiry,
    }
}

// Whether no field differs.
pub fn is_none(d: Fields) -> bool
    ensures { result ≡ is_none (fields_of d) }
{
    !(d.value | (d.version | (d.flags | d.expiry)))
}
