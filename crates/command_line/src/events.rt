//! How many events a storm has.
ghost use Rattle.std.specs.Prelude.{◌≡◌, true};
ghost use Rattle.std.specs.Char.{is_ascii_digit};
ghost use Rattle.std.specs.List.{list_all};
ghost use Rattle.dist_types.specs.Addr.{is_plain};
ghost use Rattle.command_line.specs.Asked.{events_in};

/// The most events of a storm.
const MAX_EVENTS: u64 = 100_000;

fn all_digits(bytes: &[u8]) -> bool
    ensures { result ≡ list_all is_ascii_digit bytes.now }
{
    bytes.iter().all(|b| b.is_ascii_digit())
}

// Digits with no zero before others.
fn is_plain(text: &str) -> bool
    ensures { result ≡ is_plain text.now }
{
    if text.is_empty() || !all_digits(text.as_bytes()) {
        return false;
    }
    text.as_bytes()[0] != b'0' || text.len() == 1
}

/// The number of events that a text says: digits with no zero before others, at most 100,000.
#[tactic(auto, using(crate::proofs::EventLemmas::events_read, crate::proofs::EventLemmas::not_plain))]
pub fn events_in(text: &str) -> Option<u64>
    ensures { result ≡ events_in text.now }
{
    if !is_plain(text) {
        return None;
    }
    match text.parse::<u64>() {
        Ok(count) => {
            if count <= MAX_EVENTS {
                Some(count)
            } else {
                None
            }
        }
        Err(_) => None,
    }
}
