//! The two bodies that a server reads: sources, named for what they hold.
use crate::fault::Failed;
use crate::source::Source;

/// The archive of a toolchain, as it comes.
#[derive(Debug, Drop)]
pub struct ToolchainReader<R>(pub R);

/// The inputs of a build, as they come.
#[derive(Debug, Drop)]
pub struct InputsReader<R>(pub R);

impl<R: Source> Source for ToolchainReader<R> {
    ghost left = { λ r. R.left r.0 };

    ghost faults = { λ r. R.faults r.0 };

    ghost apart = { λ r. R.apart r.0 };

    fn read(&mut self, buf: &mut [u8]) -> Result<usize, Failed> {
        self.0.read(buf)
    }
}

impl<R: Source> Source for InputsReader<R> {
    ghost left = { λ r. R.left r.0 };

    ghost faults = { λ r. R.faults r.0 };

    ghost apart = { λ r. R.apart r.0 };

    fn read(&mut self, buf: &mut [u8]) -> Result<usize, Failed> {
        self.0.read(buf)
    }
}
