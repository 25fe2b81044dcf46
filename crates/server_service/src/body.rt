//! The body of a request, as it is read.
use dist_types::fault::Failed;
use dist_types::source::Source;

/// Reads a body that is there as a whole. It never fails.
#[derive(Drop)]
pub struct BodySource<'a> {
    bytes: &'a [u8],
}

impl<'a> BodySource<'a> {
    ghost use Rattle.std.specs.Prelude.{◌≡◌, Some};

    /// A source of these bytes, of which none was read. It takes no memory.
    pub fn new(bytes: &'a [u8]) -> Self
        ensures { result.bytes.now ≡ bytes.now }
    {
        BodySource { bytes }
    }
}

impl Source for BodySource<'_> {
    ghost use Rattle.std.specs.Prelude.{Some};

    ghost left = { λ s. Some s.bytes.now };

    ghost faults = { λ _. 0 };

    fn read(&mut self, buf: &mut [u8]) -> Result<usize, Failed> {
        let bytes = self.bytes;
        let n = buf.len().min(bytes.len());
        buf[..n].copy_from_slice(&bytes[..n]);
        self.bytes = &bytes[n..];
        Ok(n)
    }
}
