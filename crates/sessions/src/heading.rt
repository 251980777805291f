// The headings of a script. Each is printed; one that begins a document's part or empties the table does so, and one that names a time sets it.
use std::io;
use terminal::print;

// The table, whether commands are calls of document 01 or 02, on a table of one record, and the time of a call.
#[derive(Drop)]
pub struct Stage {
    pub table: [u8; 256],
    pub rows: bool,
    pub time: u64,
}

impl Stage {
    // Sets the time that a heading names.
    fn set_time(&mut self, rt: &impl Print, text: &[u8]) -> io::Result<()> {
        let Some(time) = number::read_version(text) else {
            return print(rt, b"no time\n");
        };
        self.time = time;
        Ok(())
    }

    // Prints a heading, and does what it says.
    pub fn follow(&mut self, rt: &impl Print, line: &[u8]) -> io::Result<()> {
        print(rt, line)?;
        print(rt, b"\n")?;
        if let Some(text) = line.strip_prefix(b"-- time ") {
            return self.set_time(rt, text);
        }
        if line.starts_with(b"-- Document") || line.starts_with(b"-- FLUSHALL") {
            self.table = [0u8; 256];
            self.rows = line.starts_with(b"-- Document 01:")
                || line.starts_with(b"-- Document 02:");
            self.time = 1000;
        }
        Ok(())
    }
}
