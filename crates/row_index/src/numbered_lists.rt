//! `NumberedLists`: a list for each number.
ghost use Rattle.std.specs.Prelude.{◌≡◌, ◌<◌, ◌++◌, ◌∷◌, [], ℕ, OnOk, Some, None, true, if◌then◌else◌};
ghost use Rattle.std.specs.Prelude.{nat_eq, vec_len, vec_capacity};
ghost use Rattle.std.specs.HashMap.{get};
ghost use Rattle.row_index.specs.Lists.{list_at, items_in, Puts, AreAlike, HasRoomIn};

use std::alloc::{AllocError, Global};
use std::collections::HashMap;
use std::marker::Model;

/// A list for each number. Contracts see the lists that are not empty, and perhaps others, with their
/// numbers; and the number whose list has room for one more, if one is known to have it.
#[derive(Drop)]
pub struct NumberedLists {
    alloc: Global,
    lists: HashMap<u64, Vec<usize>>,
    ready: Option<u64>,
}

impl Model for NumberedLists {
    ghost use Rattle.std.specs.Prelude.{map, nat_eq, vec_len, vec_capacity, ◌<◌};
    ghost use Rattle.std.specs.HashMap.{get, spare};
    ghost use Rattle.row_index.specs.Lists.{Listed, IsReady};

    ghost Value = { Listed };

    ghost view = { λ l. record {
      lists = map (λ e. (e.0, e.1.items)) l.lists.entries;
      ready = l.ready;
    } };

    ghost invariant = { λ l. IsReady (λ v. vec_len v < vec_capacity v) (get nat_eq l.lists) (spare l.lists)
        l.ready };
}

/// The list, or an empty one. It takes no memory.
fn or_empty(alloc: Global, list: Option<Vec<usize>>) -> Vec<usize>
    ensures { result.items ≡ items_in (λ v. v.items) list }
{
    match list {
        Some(list) => list,
        None => Vec::new(alloc),
    }
}

/// Whether a number has a list with room for one more.
fn has_room(lists: &HashMap<u64, Vec<usize>>, number: u64) -> bool
    ensures { result ≡ true → HasRoomIn (λ v. vec_len v < vec_capacity v) (get nat_eq lists.now number) }
{
    match lists.get(&number) {
        Some(list) => list.len() < list.capacity(),
        None => false,
    }
}

impl NumberedLists {
    /// No list. It takes no memory.
    pub fn new(alloc: Global) -> Self
        ensures lists { result.lists ≡ [] }
        ensures ready { result.ready ≡ None }
    {
        NumberedLists {
            alloc,
            lists: HashMap::new(alloc),
            ready: None,
        }
    }

    /// The list of a number.
    pub fn of(&self, number: u64) -> &[usize]
        ensures { result.now ≡ list_at self.now.lists number }
    {
        match self.lists.get(&number) {
            Some(list) => list.as_slice(),
            None => &[],
        }
    }

    /// Makes room for one more in the list of a number. Refused for want of memory alone; the lists stay.
    pub fn make_room(&mut self, number: u64) -> Result<(), AllocError>
        ensures lists { AreAlike self.old.lists self.new.lists }
        ensures ready { OnOk result (self.new.ready ≡ Some number) }
    {
        self.ready = None;
        self.lists.reserve(2)?;
        if has_room(&self.lists, number) {
            self.ready = Some(number);
            return Ok(());
        }
        let mut list = or_empty(self.alloc, self.lists.remove(&number));
        let grown = list.reserve(1);
        match self.lists.insert(number, list) {
            Ok(_) => (),
            Err(_) => unreachable!(),
        }
        grown?;
        self.ready = Some(number);
        Ok(())
    }

    /// Puts another list in the place of one that has room for one more.
    pub fn replace(&mut self, number: u64, list: Vec<usize>)
        requires { self.old.ready ≡ Some number }
        ensures lists { Puts self.old.lists self.new.lists number list.items }
    {
        self.ready = None;
        match self.lists.insert(number, list) {
            Ok(_) => (),
            Err(_) => unreachable!(),
        }
    }

    /// Adds one to the list of a number that has room for it. It takes no memory.
    pub fn push(&mut self, number: u64, place: usize)
        requires { self.old.ready ≡ Some number }
        ensures lists { Puts self.old.lists self.new.lists number
            (list_at self.old.lists number ++ place ∷ []) }
    {
        self.ready = None;
        match self.lists.get_mut(&number) {
            Some(list) => match list.push(place) {
                Ok(()) => (),
                Err(_) => unreachable!(),
            },
            None => unreachable!(),
        }
    }

    /// Forgets the list of a number. It takes no memory.
    pub fn forget(&mut self, number: u64)
        ensures lists { Puts self.old.lists self.new.lists number [] }
    {
        self.ready = None;
        let _list = self.lists.remove(&number);
    }
}
