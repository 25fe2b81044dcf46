//! The processors of the registrations that stand.
ghost use Rattle.std.specs.Prelude.{◌≡◌, ◌≤◌, ◌<◌, ◌+◌, ◌-◌, ◌^◌, min, sum_by};
ghost use Rattle.row_index.specs.Slots.{rows_in};
ghost use Rattle.sched_core.specs.Registrations.{cpus_in, cpus_at};

use core_rules::rows::ServerRow;
use row_index::Ranks;

/// The processors of a row, or 0.
fn cpus_in(row: &Option<ServerRow>) -> u64
    ensures { result ≡ cpus_in row.now }
{
    match row {
        Some(row) => row.cpus,
        None => 0,
    }
}

/// The processors of the registration of that number, or 0.
fn cpus_at(ranks: &Ranks<ServerRow>, reg: u64) -> u64
    ensures { result ≡ cpus_at (rows_in ranks.now.places) reg }
{
    let row = ranks.row(reg);
    cpus_in(&row)
}

/// A sum with the processors of a row.
pub fn raised(sum: u128, row: &ServerRow) -> u128
    requires { sum + row.now.cpus < 2 ^ 128 }
    ensures { result ≡ sum + row.now.cpus }
{
    sum + u128::from(row.cpus)
}

/// A sum without the processors of a row.
pub fn lowered(sum: u128, row: &ServerRow) -> u128
    requires { row.now.cpus ≤ sum }
    ensures { result ≡ sum - row.now.cpus }
{
    sum - u128::from(row.cpus)
}

/// A sum without the processors of the registrations of those numbers.
fn less(ranks: &Ranks<ServerRow>, sum: u128, numbers: &[u64]) -> u128
    ensures { result ≡ sum - sum_by (cpus_at (rows_in ranks.now.places)) numbers.now }
{
    let mut left = sum;
    for number in numbers {
        left = left.saturating_sub(u128::from(cpus_at(ranks, *number)));
    }
    left
}

/// A number, at most 2^64 - 1.
fn limited(n: u128) -> u64
    ensures { result ≡ min (2 ^ 64 - 1) n }
{
    if n > 18446744073709551615 {
        18446744073709551615
    } else {
        n as u64
    }
}

/// A sum without the processors of the registrations of those numbers, at most 2^64 - 1.
pub fn sum_without(ranks: &Ranks<ServerRow>, sum: u128, numbers: &[u64]) -> u64
    ensures { result ≡ min (2 ^ 64 - 1) (sum - sum_by (cpus_at (rows_in ranks.now.places)) numbers.now) }
{
    limited(less(ranks, sum, numbers))
}
