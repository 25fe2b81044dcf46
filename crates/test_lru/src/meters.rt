//! Meters of one's own: each is proved lawful here, and called through its bounds.
ghost use Rattle.std.specs.Prelude.{◌≡◌, vec_len, true, false};
ghost use Rattle.std.specs.String.{string_len};

use lru_metered::{CountableMeter, CountableMeterWithMeasure, DefaultHasher, LruCache, Meter};
use std::string::String;
use std::test::*;
use std::vec::Vec;

/// Measures a pair by the length of its value.
#[derive(Clone, Copy)]
pub struct Lengths;

impl<K> Meter<K, Vec<u8>> for Lengths {
    type Measure = u64;

    ghost measured = { λ _ _ value. vec_len value };

    fn measure(&self, _key: &K, value: &Vec<u8>) -> u64 {
        value.len() as u64
    }
}

/// Measures a pair by its value, a number.
#[derive(Clone, Copy)]
pub struct Weights;

impl<K> Meter<K, u64> for Weights {
    type Measure = u64;

    ghost measured = { λ _ _ value. value };

    fn measure(&self, _key: &K, value: &u64) -> u64 {
        *value
    }
}

/// A number of bytes.
#[derive(Clone, Copy, Default)]
pub struct Bytes {
    count: u64,
}

/// Measures a pair by the bytes of its key, a text.
#[derive(Clone, Copy)]
pub struct KeyBytes;

impl<V> Meter<String, V> for KeyBytes {
    type Measure = Bytes;

    ghost measured = { λ _ key _. record { count = string_len key } };

    fn measure(&self, key: &String, _value: &V) -> Bytes {
        Bytes {
            count: key.len() as u64,
        }
    }
}

impl<V> CountableMeterWithMeasure<String, V, Bytes> for KeyBytes {
    ghost meter_number = { λ _ bytes. bytes.count };

    ghost meter_gives_size = { λ _. true };

    ghost meter_default_is_zero = { λ _ _ zero. zero };

    fn meter_add(&self, current: Bytes, amount: Bytes) -> Option<Bytes> {
        let count = current.count.checked_add(amount.count)?;
        Some(Bytes { count })
    }

    fn meter_sub(&self, current: Bytes, amount: Bytes) -> Bytes {
        Bytes {
            count: current.count - amount.count,
        }
    }

    fn meter_size(&self, current: Bytes) -> Option<u64> {
        Some(current.count)
    }
}

/// Sums values up as `Weights` does, and gives no size.
#[derive(Clone, Copy)]
pub struct Tally;

impl<K> Meter<K, u64> for Tally {
    type Measure = Bytes;

    ghost measured = { λ _ _ value. record { count = value } };

    fn measure(&self, _key: &K, value: &u64) -> Bytes {
        Bytes { count: *value }
    }
}

impl<K> CountableMeterWithMeasure<K, u64, Bytes> for Tally {
    ghost meter_number = { λ _ bytes. bytes.count };

    ghost meter_gives_size = { λ _. false };

    ghost meter_default_is_zero = { λ _ _ zero. zero };

    fn meter_add(&self, current: Bytes, amount: Bytes) -> Option<Bytes> {
        let count = current.count.checked_add(amount.count)?;
        Some(Bytes { count })
    }

    fn meter_sub(&self, current: Bytes, amount: Bytes) -> Bytes {
        Bytes {
            count: current.count - amount.count,
        }
    }

    fn meter_size(&self, _current: Bytes) -> Option<u64> {
        None
    }
}
