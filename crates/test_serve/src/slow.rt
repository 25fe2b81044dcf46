//! A link that hands out one byte a call.
ghost use Rattle.std.specs.Prelude.{None};

use dist_types::fault::{Failed, raise};
use dist_types::link::Link;
use dist_types::sink::Sink;
use dist_types::source::Source;
use std::alloc::Global;

/// Hands out one byte a call, and takes one. It tells no bytes.
#[derive(Drop)]
pub struct SlowLink {
    bytes: Vec<u8>,
    at: usize,
    /// What was written.
    pub out: Vec<u8>,
    faults: u64,
}

impl SlowLink {
    /// A link with these bytes to read.
    pub fn new(alloc: Global, bytes: Vec<u8>) -> Self {
        SlowLink {
            bytes,
            at: 0,
            out: Vec::new(alloc),
            faults: 0,
        }
    }

    /// How many bytes were taken.
    pub fn taken(&self) -> usize {
        self.at
    }
}

impl Source for SlowLink {
    ghost left = { λ _. None };

    ghost faults = { λ _. 0 };

    ghost apart = { λ l. (None, l.faults) };

    fn read(&mut self, buf: &mut [u8]) -> Result<usize, Failed> {
        if buf.is_empty() {
            return Ok(0);
        }
        match self.bytes.get(self.at) {
            Some(byte) => {
                buf[0] = *byte;
                self.at = self.at.saturating_add(1);
                Ok(1)
            }
            None => Ok(0),
        }
    }
}

impl Sink for SlowLink {
    ghost held = { λ _. None };

    ghost faults = { λ l. l.faults };

    ghost apart = { λ _. (None, 0) };

    fn write(&mut self, bytes: &[u8]) -> Result<usize, Failed> {
        let Some(byte) = bytes.first() else {
            return Ok(0);
        };
        match self.out.push(*byte) {
            Ok(()) => Ok(1),
            Err(_) => {
                raise(&mut self.faults);
                Err(Failed)
            }
        }
    }
}

impl Link for SlowLink {
    ghost use Rattle.std.specs.Prelude.{refl};

    ghost reads_alone = { λ _. refl };

    ghost writes_alone = { λ _. refl };
}
