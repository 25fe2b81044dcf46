//! The keys of the registrations that stand, under their numbers.
ghost use Rattle.std.specs.Prelude.{◌≡◌, ◌<◌, ◌≤◌, List, IfOk, IfErr, OnOk, IsSome, Some, None};
ghost use Rattle.std.specs.Prelude.{if◌then◌else◌};
ghost use Rattle.std.specs.Prelude.{nat_eq};
ghost use Rattle.std.specs.Option.{option_copied};
ghost use Rattle.row_index.specs.Lookup.{value_at};
ghost use Rattle.core_rules.specs.declared.entry.CoreEntry.{CoreEntry};
ghost use Rattle.core_rules.specs.Answers.{IsTokenAt};
ghost use Rattle.sched_core.specs.Books.{kept_by, keys_of, with_key, without, without_this, ended_keys};

use core_rules::entry::CoreKind;
use core_rules::error::SchedError;
use dist_types::ids::JobId;
use dist_types::roles::JobAuthorizer;
use dist_types::text::Text;
use row_index::LookupTable;
use std::alloc::AllocError;
use std::marker::Model;

/// The authorizer under the key that a registration's own heartbeat carried.
#[derive(Drop)]
pub struct RegistrationKey<A: JobAuthorizer> {
    reg: u64,
    key: A,
}

impl<A: JobAuthorizer> Model for RegistrationKey<A> {
    ghost use Rattle.std.specs.Prelude.{ℕ, List};

    ghost Value = { ℕ × List ℕ };

    ghost view = { λ k. (k.reg, A.key_of k.key) };
}

/// The key that a heartbeat of this number brings, where it makes a registration.
pub fn key_made<A: JobAuthorizer>(is_new: bool, number: u64, key: A) -> Option<RegistrationKey<A>>
    ensures { result ≡ (if is_new then Some (number, A.key_of key) else None) }
{
    if is_new {
        Some(RegistrationKey { reg: number, key })
    } else {
        None
    }
}

/// Makes room for one key more. Refused for want of memory alone; the keys stay.
pub fn make_room<A: JobAuthorizer>(keys: &mut LookupTable<u64, A>) -> Result<(), AllocError>
    ensures keys { kept_by A.key_of keys.new.entries ≡ kept_by A.key_of keys.old.entries }
    ensures room { OnOk result (0 < keys.new.spare) }
{
    keys.make_room(1)
}

/// Adds the key of a registration. It takes no memory.
fn put<A: JobAuthorizer>(keys: &mut LookupTable<u64, A>, held: RegistrationKey<A>)
    requires { 0 < keys.old.spare }
    ensures { kept_by A.key_of keys.new.entries ≡ with_key (Some held) (kept_by A.key_of keys.old.entries) }
{
    let RegistrationKey { reg, key } = held;
    keys.put(reg, key);
}

/// Adds the key of a registration, if there is one. It takes no memory.
#[inline(always)]
pub fn put_key<A: JobAuthorizer>(keys: &mut LookupTable<u64, A>, key: Option<RegistrationKey<A>>)
    requires room { IsSome key → 0 < keys.old.spare }
    ensures { kept_by A.key_of keys.new.entries ≡ with_key key (kept_by A.key_of keys.old.entries) }
{
    match key {
        Some(key) => put(keys, key),
        None => (),
    }
}

/// Takes out the key of the registration of that number.
fn end_one<A: JobAuthorizer>(keys: &mut LookupTable<u64, A>, number: u64)
    ensures keys { kept_by A.key_of keys.new.entries
        ≡ without_this (Some number) (kept_by A.key_of keys.old.entries) }
    ensures spare { keys.old.spare ≤ keys.new.spare }
{
    keys.take_out(&number);
}

/// Takes out the keys of the registrations of those numbers.
fn end_each<A: JobAuthorizer>(keys: &mut LookupTable<u64, A>, numbers: &[u64])
    ensures keys { kept_by A.key_of keys.new.entries
        ≡ without numbers.now (kept_by A.key_of keys.old.entries) }
    ensures spare { keys.old.spare ≤ keys.new.spare }
{
    for number in numbers {
        end_one(keys, *number);
    }
}

/// Takes out the key of the registration of that number, if there is a number.
fn end_if<A: JobAuthorizer>(keys: &mut LookupTable<u64, A>, number: Option<u64>)
    ensures keys { kept_by A.key_of keys.new.entries
        ≡ without_this number (kept_by A.key_of keys.old.entries) }
    ensures spare { keys.old.spare ≤ keys.new.spare }
{
    match number {
        Some(number) => end_one(keys, number),
        None => (),
    }
}

/// Takes out the keys of the registrations that an entry ends, and touches no other.
#[inline(always)]
pub fn end_keys<A: JobAuthorizer>(keys: &mut LookupTable<u64, A>, kind: &CoreKind)
    ensures keys { kept_by A.key_of keys.new.entries
        ≡ ended_keys kind.now (kept_by A.key_of keys.old.entries) }
    ensures spare { keys.old.spare ≤ keys.new.spare }
{
    match kind {
        CoreKind::Reserve(_) => (),
        CoreKind::Commit { .. } => (),
        CoreKind::Undo { .. } => (),
        CoreKind::Beat {
            pruned,
            replaced,
            ..
        } => {
            end_each(keys, pruned.get());
            end_if(keys, *replaced);
        }
        CoreKind::Update { .. } => (),
        CoreKind::Status { pruned, .. } => end_each(keys, pruned.get()),
        CoreKind::Drain { .. } => (),
    }
}

/// A job's token of an authorizer. Refused for want of memory alone.
fn token_of<A: JobAuthorizer>(authorizer: &A, job: JobId) -> Result<Text, SchedError>
    ensures token { IfOk result (λ text. text ≡ A.token_for authorizer.now job.0) }
    ensures memory { IfErr result (λ e. e ≡ SchedError.Memory) }
{
    match authorizer.generate_token(job) {
        Ok(text) => Ok(Text::new(text)),
        Err(_) => Err(SchedError::Memory),
    }
}

/// The authorizer of a number, if there is one.
fn authorizer_of<A: JobAuthorizer>(keys: &LookupTable<u64, A>, number: u64) -> Option<&A>
    ensures { option_copied result ≡ value_at nat_eq number keys.now.entries }
{
    keys.get(&number)
}

/// The job's token under the key of a registration that has one. Refused for want of memory alone.
pub fn token_at<A: JobAuthorizer>(
    keys: &LookupTable<u64, A>,
    reg: u64,
    job: JobId,
) -> Result<Text, SchedError>
    requires there { IsSome (kept_by A.key_of keys.now.entries reg) }
    ensures token { (log : List CoreEntry) → kept_by A.key_of keys.now.entries ≡ keys_of log
        → IfOk result (IsTokenAt A.key_of A.token_for log reg job) }
    ensures memory { IfErr result (λ e. e ≡ SchedError.Memory) }
{
    match authorizer_of(keys, reg) {
        Some(key) => token_of(key, job),
        None => unreachable!(),
    }
}
