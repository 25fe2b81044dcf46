//! The keys by which the scheduler picks.
ghost use Rattle.std.specs.Prelude.{◌≡◌, nat_lt};
ghost use Rattle.row_index.specs.Keys.{less_or, load_before, moment_before};
ghost use Rattle.row_index.specs.KeyLaws.{load_one_way, load_through, load_apart};
ghost use Rattle.row_index.specs.KeyLaws.{moment_one_way, moment_through, moment_apart};

use crate::key::Key;

/// The load of a registration and its processors, of which there is at least one, and its number.
/// The least load for each processor goes first, and of equal ones the least number.
#[derive(Clone, Copy, Debug)]
pub struct LoadKey {
    /// How many of its reservations have not ended.
    pub load: u64,
    /// Its processors. None counts as one.
    pub cpus: u64,
    /// Its number.
    pub number: u64,
}

/// Whether the load is less, or they are equal and the number is less.
#[inline(always)]
fn goes_first(a: &LoadKey, b: &LoadKey) -> bool
    ensures { result ≡ less_or a.now.load b.now.load (nat_lt a.now.number b.now.number) }
{
    if a.load != b.load {
        return a.load < b.load;
    }
    a.number < b.number
}

impl Key for LoadKey {
    ghost before = { load_before };

    ghost one_way = { load_one_way };

    ghost through = { load_through };

    ghost apart = { load_apart };

    #[inline(always)]
    #[tactic(auto, using(crate::proofs::KeyLemmas::equal_cpus))]
    fn is_before(&self, other: &Self) -> bool {
        // Of the same processors the loads alone tell, with no product.
        if self.cpus == other.cpus {
            return goes_first(self, other);
        }
        let own = u128::from(self.load) * u128::from(other.cpus.max(1));
        let others = u128::from(other.load) * u128::from(self.cpus.max(1));
        if own != others {
            return own < others;
        }
        if self.number != other.number {
            return self.number < other.number;
        }
        self.cpus < other.cpus
    }
}

/// A moment and the number of a registration. The least moment goes first, and of equal ones the least
/// number.
#[derive(Clone, Copy, Debug)]
pub struct MomentKey {
    /// The moment, in milliseconds.
    pub moment: u64,
    /// The number of the registration.
    pub number: u64,
}

impl Key for MomentKey {
    ghost before = { moment_before };

    ghost one_way = { moment_one_way };

    ghost through = { moment_through };

    ghost apart = { moment_apart };

    fn is_before(&self, other: &Self) -> bool {
        if self.moment != other.moment {
            return self.moment < other.moment;
        }
        self.number < other.number
    }
}
