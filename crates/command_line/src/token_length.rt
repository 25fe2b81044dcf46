//! How long a shared token is.
ghost use Rattle.std.specs.Prelude.{◌≡◌, ◌/◌};
ghost use Rattle.command_line.specs.Asked.{is_length, bits_in};

use std::fmt;
use std::marker::Model;

/// A number of random bits: a multiple of 8 from 64 to 4096.
#[derive(Clone, Copy, Debug, PartialEq, Eq)]
pub struct TokenLength {
    bits: u64,
}

impl Model for TokenLength {
    ghost use Rattle.std.specs.Prelude.{ℕ};

    ghost Value = { ℕ };

    ghost view = { λ l. l.bits };

    ghost inverse = { λ n. record { bits = n } };
}

fn is_length(bits: u64) -> bool
    ensures { result ≡ is_length bits }
{
    64 <= bits && bits <= 4096 && bits % 8 == 0
}

impl TokenLength {
    /// The length that a text says, as a job's number is read: an optional `+`, then digits.
    #[tactic(auto, using(crate::proofs::LengthLemmas::length_read, crate::proofs::LengthLemmas::length_refused))]
    pub fn from_bits(text: &str) -> Option<Self>
        ensures { result ≡ bits_in text.now }
    {
        match text.parse::<u64>() {
            Ok(bits) => {
                if is_length(bits) {
                    Some(TokenLength { bits })
                } else {
                    None
                }
            }
            Err(_) => None,
        }
    }

    /// How many bytes they are.
    pub fn num_bytes(&self) -> usize
        ensures { result ≡ self.now / 8 }
    {
        (self.bits / 8) as usize
    }
}

/// The bits, in decimal.
impl fmt::Display for TokenLength {
    ghost use Rattle.std.specs.Prelude.{Some};
    ghost use Rattle.std.specs.Fmt.{decimal};

    ghost output = { λ l. Some (decimal l) };

    fn fmt<W: fmt::Write>(&self, f: &mut fmt::Formatter<W>) -> fmt::Result {
        write!(f, "{}", self.bits)
    }
}
