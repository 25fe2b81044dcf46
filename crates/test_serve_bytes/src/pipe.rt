//! A stream of an input and an output.
use std::io::{self, Read, Write};

/// An input and an output as one stream, of which a read gives so many bytes at most.
#[derive(Drop)]
pub struct Pipe<I: Read, O: Write> {
    input: I,
    output: O,
    most: u64,
}

impl<I: Read, O: Write> Pipe<I, O> {
    /// The stream of both. It takes no memory.
    pub fn new(input: I, output: O, most: u64) -> Self {
        Pipe {
            input,
            output,
            most,
        }
    }
}

impl<I: Read, O: Write> Read for Pipe<I, O> {
    fn read(&mut self, buf: &mut [u8]) -> io::Result<usize> {
        let most = buf.len().min(self.most as usize);
        self.input.read(&mut buf[..most])
    }
}

impl<I: Read, O: Write> Write for Pipe<I, O> {
    fn write(&mut self, buf: &[u8]) -> io::Result<usize> {
        self.output.write(buf)
    }

    fn flush(&mut self) -> io::Result<()> {
        self.output.flush()
    }
}
