//! Standard input, line by line.
ghost use Rattle.std.specs.Prelude.{◌≤◌};

use console::line::Line;
use std::io;
use std::io::{Read, Stdin};

// The lines of standard input that have a line end, with room to read ahead, in fixed memory; what was read and is not yet used lies
// from start to end. The library's buffered reader takes its room from the heap, and its lock on standard input reads a byte at a time
// from a pipe. It is no iterator: each line would be a value of its own, made and moved for each line, 9,000 bytes of it.
#[derive(Drop)]
pub struct Lines {
    input: Stdin,
    chunk: [u8; 4096],
    start: usize,
    end: usize,
    line: Line,
    ghost order: { start ≤ end },
    ghost within: { end ≤ 4096 },
}

impl Lines {
    // The lines that are still to come.
    pub fn of(input: Stdin) -> Lines {
        Lines {
            input,
            chunk: [0; 4096],
            start: 0,
            end: 0,
            line: Line::new(),
        }
    }

    // The line that was read last.
    pub fn line(&self) -> &Line {
        &self.line
    }

    // The next byte, or none where the input ends.
    fn next_byte(&mut self) -> io::Result<Option<u8>> {
        if self.start == self.end {
            let count = self.input.read(&mut self.chunk)?;
            if count == 0 {
                return Ok(None);
            }
            self.start = 0;
            self.end = count;
        }
        let byte = self.chunk[self.start];
        self.start += 1;
        Ok(Some(byte))
    }

    // Reads the bytes up to the next line end into the line; false where the input ends before one.
    pub fn read_line(&mut self) -> io::Result<bool> {
        self.line.clear();
        for _ in 0..u64::MAX {
            match self.next_byte()? {
                None => return Ok(false),
                Some(b'\n') => return Ok(true),
                Some(byte) => self.line.add(byte),
            }
        }
        Ok(false)
    }
}
