//! What is opened for reading.
ghost use Rattle.std.specs.Prelude.{◌≡◌, ◌+◌, ◌++◌, length, take, drop};
ghost use Rattle.lru_disk_cache.specs.Read.{Reading, to_read, read_length};

use std::marker::Model;

/// Bytes that are read from a place on, which may be moved.
pub trait ReadSeek {
    /// Its content, and the place where the next byte is read.
    ghost reading: { Self → Reading };

    /// Reads as many bytes as are left and fit into the front of the buffer, and gives how many. A place past
    /// the end reads nothing.
    fn read(&mut self, buf: &mut [u8]) -> usize
        ensures amount { result ≡ read_length (reading self.old) (length buf.old) }
        ensures taken { buf.new ≡ take result (to_read (reading self.old)) ++ drop result buf.old }
        ensures moves { reading self.new ≡ record
            (reading self.old) { place = (reading self.old).place + result } };

    /// The next byte is read at this place, counted from 0.
    fn seek(&mut self, place: u64)
        ensures { reading self.new ≡ record (reading self.old) { place = place } };
}

/// The content of a file, which is read from its front on.
#[derive(Debug, Drop)]
pub struct Opened {
    bytes: Vec<u8>,
    place: u64,
}

impl Model for Opened {
    ghost use Rattle.lru_disk_cache.specs.Read.{Reading};

    ghost Value = { Reading };

    ghost view = { λ o. record { content = o.bytes.items; place = o.place } };
}

impl Opened {
    /// Bytes that are read from the front on.
    pub fn new(bytes: Vec<u8>) -> Self
        ensures { result ≡ record { content = bytes.items; place = 0 } }
    {
        Opened { bytes, place: 0 }
    }

    /// The whole content. It takes no memory.
    pub fn into_bytes(self) -> Vec<u8>
        ensures { result.items ≡ self.content }
    {
        self.bytes
    }
}

impl ReadSeek for Opened {
    ghost reading = { λ o. o };

    fn read(&mut self, buf: &mut [u8]) -> usize {
        if self.place >= self.bytes.len() as u64 {
            return 0;
        }
        let at = self.place as usize;
        let n = buf.len().min(self.bytes.len() - at);
        buf[..n].copy_from_slice(&self.bytes[at..at + n]);
        self.place += n as u64;
        n
    }

    fn seek(&mut self, place: u64) {
        self.place = place;
    }
}
