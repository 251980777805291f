// The subcommands of BITFIELD by value.

// The type of a field: signed or not, and its width in bits.
#[derive(Clone, Copy)]
pub struct IntType {
    pub signed: bool,
    pub width: u8,
}

// A field: its type and its first bit.
#[derive(Clone, Copy)]
pub struct Field {
    pub int: IntType,
    pub offset: u64,
}

// What INCRBY makes of a sum that does not fit: OVERFLOW WRAP, SAT or FAIL.
#[derive(Clone, Copy)]
pub enum Mode {
    Wrap,
    Sat,
    Fail,
}

// What a subcommand does with its field.
#[derive(Clone, Copy)]
pub enum Operation {
    Get,
    Set,
    Incrby(Mode),
}

// A subcommand with its number, which is 0 for GET.
// Kept: an operation is known by its name alone, before its words are read; with the number in it a second enum would stand for the name.
#[derive(Clone, Copy)]
pub struct Sub {
    pub operation: Operation,
    pub field: Field,
    pub number: i64,
}

// The subcommands of a command: the first `count` of the list, at most four, since one has three words or more; past the fourth place the fourth
// would stand again.
// Kept: an array with a count, since the library has no heap for a Vec; and no fact of either, since what takes subcommands takes any.
#[derive(Clone, Copy)]
pub struct Subs {
    pub list: [Sub; 4],
    pub count: usize,
}
