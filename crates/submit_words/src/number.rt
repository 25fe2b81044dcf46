//! Numbers in words.
ghost use Rattle.std.specs.Prelude.{◌≡◌};
ghost use Rattle.std.specs.Char.{is_ascii_digit};
ghost use Rattle.std.specs.List.{list_all};
ghost use Rattle.submit_words.specs.Words.{is_plain, plain_in, within, number_in};

fn all_digits(bytes: &[u8]) -> bool
    ensures { result ≡ list_all is_ascii_digit bytes.now }
{
    bytes.iter().all(|b| b.is_ascii_digit())
}

// Digits with no zero before others.
fn is_plain(text: &str) -> bool
    ensures { result ≡ is_plain text.now }
{
    if text.is_empty() || !all_digits(text.as_bytes()) {
        return false;
    }
    text.as_bytes()[0] != b'0' || text.len() == 1
}

// The number of 64 bits that digits with no zero before others say.
#[tactic(auto, using(crate::proofs::NumberLemmas::plain_read, crate::proofs::NumberLemmas::not_plain))]
fn plain_in(text: &str) -> Option<u64>
    ensures { result ≡ plain_in text.now }
{
    if !is_plain(text) {
        return None;
    }
    match text.parse::<u64>() {
        Ok(number) => Some(number),
        Err(_) => None,
    }
}

fn within(most: u64, number: u64) -> Option<u64>
    ensures { result ≡ within most number }
{
    if 1 <= number && number <= most {
        Some(number)
    } else {
        None
    }
}

/// The number that a text says: digits with no zero before others, from 1 to the most.
pub fn number_in(most: u64, text: &str) -> Option<u64>
    ensures { result ≡ number_in most text.now }
{
    match plain_in(text) {
        Some(number) => within(most, number),
        None => None,
    }
}
