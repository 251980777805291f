// A script, line by line: headings, commands, and the prompts that the documents leave open.
use crate::change::print_change;
use crate::heading::Stage;
use crate::session::{print_answer_number, send};
use std::io;
use terminal::print;

// The bytes of a record.
const RECORD_SIZE: usize = 128;

impl Stage {
    // Sends a command to the table of one record, and prints the number where it is not 0 and what became of the table.
    fn row(&mut self, rt: &impl Print, line: &[u8]) -> io::Result<()> {
        let before = self.table;
        let time = self.time;
        let answer = send(rt, &mut self.table[..RECORD_SIZE], time, line)?;
        if answer.number != 0 {
            print_answer_number(rt, answer)?;
        }
        print_change(rt, &before, &self.table)
    }

    // Sends a command to the table of two records, and prints the number where there is no reply.
    fn run(&mut self, rt: &impl Print, line: &[u8]) -> io::Result<()> {
        let answer = send(rt, &mut self.table, self.time, line)?;
        if answer.len == 0 {
            print_answer_number(rt, answer)?;
        }
        Ok(())
    }

    // Plays one line.
    fn play_line(&mut self, rt: &impl Print, line: &[u8]) -> io::Result<()> {
        match line {
            [] => print(rt, b"\n"),
            [b'>', ..] => print(rt, b"127.0.0.1:6379>\n"),
            [b'-', ..] => self.follow(rt, line),
            _ if self.rows => self.row(rt, line),
            _ => self.run(rt, line),
        }
    }
}

// Plays each line of a script.
pub fn play(rt: &impl Print, script: &[u8]) -> io::Result<()> {
    let mut stage = Stage {
        table: [0u8; 256],
        rows: true,
        time: 1000,
    };
    for line in script.split_inclusive(|b| *b == b'\n') {
        stage.play_line(rt, line.strip_suffix(b"\n").unwrap_or(line))?;
    }
    Ok(())
}
