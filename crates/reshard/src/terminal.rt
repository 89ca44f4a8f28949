//! Standard input that may be a terminal.
use std::io::{self, Read, Write};

/// An input of which a line tells, once, before it is read.
#[derive(Drop)]
pub(crate) struct Announced<R: Drop, W: Drop> {
    reader: R,
    writer: W,
    line: Option<&'static str>,
}

impl<R: Read + Drop, W: Write + Drop> Announced<R, W> {
    /// The input, which is told of by the line on the writer, if there is one.
    pub(crate) fn new(reader: R, writer: W, line: Option<&'static str>) -> Self {
        Self {
            reader,
            writer,
            line,
        }
    }
}

impl<R: Read + Drop, W: Write + Drop> Read for Announced<R, W> {
    fn read(&mut self, buf: &mut [u8]) -> io::Result<usize> {
        if let Some(line) = self.line.take() {
            let _told = self.writer.write_all(line.as_bytes());
        }
        self.reader.read(buf)
    }
}
