//! What a build's process gave, and the files that it made.
ghost use Rattle.std.specs.Prelude.{◌≡◌, ◌≢◌, ◌≤◌, ◌<◌, [], IfOk, IfSome, OnOk, OnErr, length, None, Err};
ghost use Rattle.dist_types.specs.Cause.{Rose};
ghost use Rattle.dist_types.specs.Content.{Taken, TookFront, TookAtMost, IsAtEnd};
ghost use Rattle.dist_types.specs.Output.{output_in};
ghost use Rattle.dist_types.specs.InMemory.{source_left, source_fails};

use crate::fault::Memory;
use crate::source::{MemSource, ReadError, Source, read_whole};
use crate::text::Bytes;
use crate::try_clone::TryClone;
use crate::type_error::TypeError;
use std::alloc::Global;
use std::fmt;

/// The most bytes of one output.
pub const MAX_OUTPUT: u32 = 1_073_741_824;

/// What a process gave that ended with a code.
#[derive(Debug, Drop)]
pub struct ProcessOutput {
    /// The code that it ended with.
    pub code: i32,
    /// What it wrote to standard output.
    pub stdout: Bytes,
    /// What it wrote to standard error.
    pub stderr: Bytes,
}

/// What a process gave, however it ended.
#[derive(Debug, Drop)]
pub struct ExitOutput {
    /// The code that it ended with.
    pub code: i32,
    /// The signal that ended it.
    pub signal: Option<i32>,
    /// What it wrote to standard output.
    pub stdout: Bytes,
    /// What it wrote to standard error.
    pub stderr: Bytes,
}

impl ProcessOutput {
    /// The output of a process with its code; Signalled with the signal where it has no code, NoCode where
    /// it has neither. It takes no memory.
    pub fn try_from(
        code: Option<i32>,
        signal: Option<i32>,
        stdout: Bytes,
        stderr: Bytes,
    ) -> Result<Self, TypeError>
        ensures output { result ≡ output_in code signal stdout stderr }
    {
        match code {
            Some(code) => Ok(ProcessOutput {
                code,
                stdout,
                stderr,
            }),
            None => match signal {
                Some(signal) => Err(TypeError::Signalled(signal)),
                None => Err(TypeError::NoCode),
            },
        }
    }

    /// The same, ended by no signal. It takes no memory.
    pub fn into_output(self) -> ExitOutput
        ensures output { result
            ≡ record { code = self.code; signal = None; stdout = self.stdout; stderr = self.stderr } }
    {
        let ProcessOutput {
            code,
            stdout,
            stderr,
        } = self;
        ExitOutput {
            code,
            signal: None,
            stdout,
            stderr,
        }
    }
}

impl TryClone for ProcessOutput {
    fn clone(&self) -> Result<Self, Memory> {
        let stdout = self.stdout.clone()?;
        let stderr = self.stderr.clone()?;
        Ok(ProcessOutput {
            code: self.code,
            stdout,
            stderr,
        })
    }
}

/// The bytes of one output file, and their number before they were packed.
#[derive(Debug, Drop)]
pub struct OutputData(pub Bytes, pub u64);

/// The sizes of an output, in bytes.
#[derive(Clone, Copy, Debug, PartialEq, Eq)]
pub struct OutputDataLens {
    /// Before it was packed.
    pub actual: u64,
    /// As it is kept.
    pub compressed: u64,
}

impl OutputData {
    /// All that a source has left, and its number: Failed only where the source's count of faults rose,
    /// TooLong exactly where more than 1,073,741,824 bytes came. After an error a front was read, of at most
    /// one byte past that.
    pub fn try_from_reader<R: Source>(alloc: Global, reader: &mut R) -> Result<Self, ReadError>
        ensures all { IfOk result (λ d. Taken d.0 (R.left reader.old) (R.left reader.new)) }
        ensures at_end { OnOk result (IsAtEnd (R.left reader.new)) }
        ensures size { IfOk result (λ d. d.1 ≡ length d.0) }
        ensures short { IfOk result (λ d. length d.0 ≤ 1073741824) }
        ensures too_long { result ≡ Err ReadError.TooLong
            → IfSome (R.left reader.old) (λ left. 1073741824 < length left) }
        ensures front { OnErr result (TookFront (R.left reader.old) (R.left reader.new)) }
        ensures bounded { OnErr result (TookAtMost 1073741825 (R.left reader.old) (R.left reader.new)) }
        ensures steady { OnOk result (R.faults reader.new ≡ R.faults reader.old) }
        ensures uncounted { result ≢ Err ReadError.Failed → R.faults reader.new ≡ R.faults reader.old }
        ensures apart { R.apart reader.new ≡ R.apart reader.old }
        ensures later { R.faults reader.old ≤ R.faults reader.new }
        ensures cause { result ≡ Err ReadError.Failed → Rose (R.faults reader.old) (R.faults reader.new) }
    {
        let bytes = read_whole(alloc, reader, MAX_OUTPUT)?;
        let size = bytes.len() as u64;
        Ok(OutputData(Bytes::new(bytes), size))
    }

    /// Its sizes.
    pub fn lens(&self) -> OutputDataLens
        ensures lens { result ≡ record { actual = self.now.1; compressed = length self.now.0 } }
    {
        OutputDataLens {
            actual: self.1,
            compressed: self.0.get().len() as u64,
        }
    }

    /// A source of its bytes. It takes no memory.
    pub fn into_reader(self) -> MemSource
        ensures left { source_left result ≡ self.0 }
        ensures fails { source_fails result ≡ [] }
    {
        let alloc = self.0.alloc();
        let OutputData(bytes, _) = self;
        MemSource::new(bytes.into_inner(), Vec::new(alloc))
    }
}

impl TryClone for OutputData {
    fn clone(&self) -> Result<Self, Memory> {
        let bytes = self.0.clone()?;
        Ok(OutputData(bytes, self.1))
    }
}

/// `Size: ACTUAL->COMPRESSED`.
impl fmt::Display for OutputDataLens {
    ghost use Rattle.std.specs.Prelude.{Some};
    ghost use Rattle.dist_types.specs.Output.{lens_text};

    ghost output = { λ l. Some (lens_text l) };

    fn fmt<W: fmt::Write>(&self, f: &mut fmt::Formatter<W>) -> fmt::Result {
        let actual = self.actual;
        let compressed = self.compressed;
        write!(f, "Size: {actual}->{compressed}")
    }
}
