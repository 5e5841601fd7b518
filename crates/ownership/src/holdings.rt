//! A sorted list of what clients have of one kind.

ghost use Rattle.std.specs.Prelude.{◌≡◌, ◌≢◌, ◌≤◌, ◌<◌, ◌&&◌, ◌||◌, not, ℕ, [], true, false, nat_eq, nat_le, IfSome, IfNone, OnOk, length, vec_len, vec_capacity};
ghost use Rattle.ownership.specs.Lists.{IsInOrder, IsLast, IsPlaceOf, held_by, holds, is_before, is_of};

use std::alloc::{AllocError, Global};

/// A number, and the client whose it is.
#[derive(Clone, Copy, Debug, PartialEq, Eq)]
pub(crate) struct Holding {
    pub(crate) client: u32,
    pub(crate) number: u64,
}

/// What clients have of one kind, in the order of the numbers that it has.
#[derive(Drop)]
pub struct Holdings {
    pub(crate) list: Vec<Holding>,
    ghost order: { IsInOrder list.items },
}

/// Whether this comes before a number of a client.
#[inline(always)]
fn comes_before(holding: &Holding, client: u32, number: u64) -> bool
    ensures { result ≡ is_before client number holding.now }
{
    holding.number < number || (holding.number == number && holding.client < client)
}

/// Whether this is a number of a client.
#[inline(always)]
fn is_number_of(holding: &Holding, client: u32, number: u64) -> bool
    ensures { result ≡ is_of client number holding.now }
{
    holding.client == client && holding.number == number
}

/// A number of a client in a list, if it has one there.
fn first_number(list: &[Holding], client: u32) -> Option<u64>
    ensures some { IfSome result (λ number. holds list.now client number ≡ true) }
    ensures none { IfNone result ((number : ℕ) → holds list.now client number ≡ false) }
{
    let mut rest = list;
    'list: while let Some((holding, after)) = rest.split_first() {
        if holding.client == client {
            return Some(holding.number);
        }
        rest = after;
    }
    None
}

/// How many of a list are a client's.
#[inline(never)]
fn count_of(list: &[Holding], client: u32) -> usize
    ensures { result ≡ held_by client list.now }
{
    let mut count = 0;
    for holding in list {
        count += if holding.client == client { 1 } else { 0 };
    }
    count
}

impl Holdings {
    /// Nothing.
    pub fn new(alloc: Global) -> Holdings
        ensures { result.list.items ≡ [] }
    {
        Holdings {
            list: Vec::new(alloc),
        }
    }

    /// The place of a client's number.
    #[inline(always)]
    fn place(&self, client: u32, number: u64) -> usize
        ensures { IsPlaceOf client number self.now.list.items result }
    {
        self.list
            .partition_point(|holding| comes_before(holding, client, number))
    }

    /// Whether it is there, at its place.
    #[inline(always)]
    fn is_at(&self, place: usize, client: u32, number: u64) -> bool
        requires { IsPlaceOf client number self.now.list.items place }
        ensures { result ≡ holds self.now.list.items client number }
    {
        match self.list.get(place) {
            Some(holding) => is_number_of(holding, client, number),
            None => false,
        }
    }

    /// Whether the last of the list is this number of a client. What is used is often what was noted last, and comes
    /// last.
    #[inline(always)]
    fn ends_with(&self, client: u32, number: u64) -> bool
        ensures { result ≡ true → IsLast client number self.now.list.items }
    {
        match self.list.last() {
            Some(last) => is_number_of(last, client, number),
            None => false,
        }
    }

    /// Whether the whole list comes before a number of a client.
    #[inline(always)]
    fn ends_before(&self, client: u32, number: u64) -> bool
        ensures { result ≡ true
            → IsPlaceOf client number self.now.list.items (length self.now.list.items) }
    {
        match self.list.last() {
            Some(last) => comes_before(last, client, number),
            None => true,
        }
    }

    /// Whether a number is this client's, by a search.
    #[inline(never)]
    fn has_within(&self, client: u32, number: u64) -> bool
        ensures { result ≡ holds self.now.list.items client number }
    {
        self.is_at(self.place(client, number), client, number)
    }

    /// Whether a number is this client's.
    #[inline(always)]
    pub fn has(&self, client: u32, number: u64) -> bool
        ensures { result ≡ holds self.now.list.items client number }
    {
        if self.ends_with(client, number) {
            return true;
        }
        self.has_within(client, number)
    }

    /// Takes room for one more.
    #[inline(always)]
    pub fn reserve(&mut self) -> Result<(), AllocError>
        ensures items { self.new.list.items ≡ self.old.list.items }
        ensures room { OnOk result (vec_len self.new.list < vec_capacity self.new.list) }
    {
        self.list.reserve(1)
    }

    /// Notes that a number is a client's, for which there is room, where it belongs.
    #[inline(never)]
    fn insert_within(&mut self, client: u32, number: u64)
        requires room { vec_len self.old.list < vec_capacity self.old.list }
        ensures held { (c n : ℕ) → holds self.new.list.items c n
            ≡ (holds self.old.list.items c n || (nat_eq client c && nat_eq number n)) }
        ensures others { (c : ℕ) → c ≢ client
            → held_by c self.new.list.items ≡ held_by c self.old.list.items }
    {
        let place = self.place(client, number);
        if self.is_at(place, client, number) {
            return;
        }
        self.list.insert(place, Holding { client, number }).unwrap();
    }

    /// Notes that a number is a client's, for which there is room.
    #[inline(always)]
    pub fn insert(&mut self, client: u32, number: u64)
        requires room { vec_len self.old.list < vec_capacity self.old.list }
        ensures held { (c n : ℕ) → holds self.new.list.items c n
            ≡ (holds self.old.list.items c n || (nat_eq client c && nat_eq number n)) }
        ensures others { (c : ℕ) → c ≢ client
            → held_by c self.new.list.items ≡ held_by c self.old.list.items }
    {
        if !self.ends_before(client, number) {
            self.insert_within(client, number);
            return;
        }
        self.list.push(Holding { client, number }).unwrap();
    }

    /// Notes that a number is a client's no more, after a search.
    #[inline(never)]
    fn remove_within(&mut self, client: u32, number: u64)
        ensures held { (c n : ℕ) → holds self.new.list.items c n
            ≡ (holds self.old.list.items c n && not (nat_eq client c && nat_eq number n)) }
        ensures fewer { holds self.old.list.items client number ≡ true
            → held_by client self.new.list.items < held_by client self.old.list.items }
        ensures room { holds self.old.list.items client number ≡ true
            → vec_len self.new.list < vec_capacity self.new.list }
        ensures kept { vec_len self.old.list < vec_capacity self.old.list
            → vec_len self.new.list < vec_capacity self.new.list }
    {
        let place = self.place(client, number);
        if self.is_at(place, client, number) {
            self.list.remove(place);
        }
    }

    /// Notes that a number is a client's no more.
    #[inline(always)]
    pub fn remove(&mut self, client: u32, number: u64)
        ensures held { (c n : ℕ) → holds self.new.list.items c n
            ≡ (holds self.old.list.items c n && not (nat_eq client c && nat_eq number n)) }
        ensures fewer { holds self.old.list.items client number ≡ true
            → held_by client self.new.list.items < held_by client self.old.list.items }
        ensures room { holds self.old.list.items client number ≡ true
            → vec_len self.new.list < vec_capacity self.new.list }
        ensures kept { vec_len self.old.list < vec_capacity self.old.list
            → vec_len self.new.list < vec_capacity self.new.list }
    {
        if !self.ends_with(client, number) {
            self.remove_within(client, number);
            return;
        }
        self.list.pop();
    }

    /// A number of a client, if it has one.
    pub fn first_of(&self, client: u32) -> Option<u64>
        ensures some { IfSome result (λ number. holds self.now.list.items client number ≡ true) }
        ensures none { IfNone result ((number : ℕ)
            → holds self.now.list.items client number ≡ false) }
    {
        first_number(&self.list, client)
    }

    /// Whether a client has at least so many. They are counted only if there are as many in all.
    #[inline(always)]
    pub fn has_as_many(&self, client: u32, most: u32) -> bool
        ensures { result ≡ nat_le most (held_by client self.now.list.items) }
    {
        if self.list.len() < most as usize {
            return false;
        }
        count_of(&self.list, client) >= most as usize
    }

    /// What is one client's becomes another's.
    pub fn pass(&mut self, from: u32, to: u32)
        requires { from ≢ to }
        ensures { (c n : ℕ) → holds self.new.list.items c n
            ≡ ((holds self.old.list.items c n && not (nat_eq from c))
            || (nat_eq to c && holds self.old.list.items from n)) }
    {
        while let Some(number) = self.first_of(from) {
            self.remove(from, number);
            self.insert(to, number);
        }
    }
}
