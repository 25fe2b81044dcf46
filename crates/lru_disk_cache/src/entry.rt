//! Entries that are being added: what their holder has, and what the cache keeps of each.
ghost use Rattle.std.specs.Prelude.{◌≡◌};
ghost use Rattle.lru_disk_cache.specs.Reserved.{is_of, doubted};

use dist_types::text::Text;
use std::marker::Model;

/// An entry that is being added. `LruDiskCache::prepare_add` makes it, and it must be spent by
/// `LruDiskCache::commit` or `LruDiskCache::abandon`: it can be neither dropped nor copied.
pub struct LruDiskCacheAddEntry {
    number: u64,
    key: Text,
    size: u64,
}

impl Model for LruDiskCacheAddEntry {
    ghost use Rattle.lru_disk_cache.specs.Reserved.{AddEntry};

    ghost Value = { AddEntry };

    ghost view = { λ e. record { number = e.number; key = e.key; size = e.size } };
}

impl LruDiskCacheAddEntry {
    /// The entry of a number and a key, with the size announced.
    pub(crate) fn new(number: u64, key: Text, size: u64) -> Self
        ensures { result ≡ record { number = number; key = key; size = size } }
    {
        LruDiskCacheAddEntry { number, key, size }
    }

    /// Its number: the least that no open reservation of its cache had.
    pub fn number(&self) -> u64
        ensures { result ≡ self.now.number }
    {
        self.number
    }

    /// The key that it is to stand under.
    pub fn key(&self) -> &str
        ensures key { result.now ≡ self.now.key }
    {
        self.key.get()
    }

    /// The size announced, in bytes.
    pub fn size(&self) -> u64
        ensures { result ≡ self.now.size }
    {
        self.size
    }

    /// Spends it. Gives its number.
    pub(crate) fn spend(self) -> u64
        ensures { result ≡ self.number }
    {
        let LruDiskCacheAddEntry {
            number,
            key: _key,
            size: _size,
        } = self;
        number
    }
}

/// A reservation: its number, its key, the size announced, the path of its temporary file, and whether that
/// is sure to be there.
#[derive(Drop)]
pub(crate) struct Reserved {
    pub(crate) number: u64,
    pub(crate) key: Text,
    pub(crate) size: u64,
    pub(crate) temp: Text,
    pub(crate) sure: bool,
}

impl Model for Reserved {
    ghost use Rattle.lru_disk_cache.specs.Reserved.{Reservation};

    ghost Value = { Reservation };

    ghost view = { λ r. record { number = r.number; key = r.key; size = r.size; temp = r.temp; sure = r.sure } };
}

/// Whether a reservation is an entry's: number, key and size are its own.
pub(crate) fn is_of(entry: &LruDiskCacheAddEntry, reserved: &Reserved) -> bool
    ensures { result ≡ is_of entry.now reserved.now }
{
    reserved.number == entry.number && reserved.size == entry.size && entry.key == reserved.key
}

/// Its temporary file is not sure to be there any more, where it has this number.
pub(crate) fn doubt(reserved: &mut Reserved, number: u64)
    ensures { reserved.new ≡ doubted number reserved.old }
{
    reserved.sure = reserved.sure && reserved.number != number;
}
