//! The owners of what is open.

ghost use Rattle.std.specs.Prelude.{◌≡◌, ◌<◌, ◌&&◌, ◌||◌, not, ℕ, true, false, nat_eq, is_some, IfSome, IfNone, OnErr, OnOk, Some};
ghost use Rattle.request_codec.specs.Answers.{answer_of};
ghost use Rattle.request_codec.specs.Operations.{operation_of};
ghost use Rattle.ownership.specs.Names as names;
ghost use Rattle.ownership.specs.Tables as tables;
ghost use Rattle.ownership.specs.Tables.{owns, table_of};
ghost use Rattle.ownership.specs.declared.names.Name.{Name as NameOf};

use crate::holdings::Holdings;
use crate::names::{Kind, Name, given, given_kind, named};
use cell_key::{Refusal, Stamp};
use request_codec::{Answer, Operation, Request};
use std::alloc::{AllocError, Global};

/// The most sessions of a client that are open.
pub const MOST_SESSIONS: u32 = 64;

/// The most cleaners of a client.
pub const MOST_CLEANERS: u32 = 64;

/// The most collectors of a client.
pub const MOST_COLLECTORS: u32 = 4;

/// Which sessions, cleaners and collectors are which client's.
#[derive(Drop)]
pub struct Owners {
    pub(crate) sessions: Holdings,
    pub(crate) cleaners: Holdings,
    pub(crate) collectors: Holdings,
}

/// Whether only the administrator may ask this.
#[inline(always)]
fn is_upkeep(operation: &Operation<'_>) -> bool
    ensures { result ≡ tables.is_upkeep (operation_of operation.now) }
{
    matches!(
        operation,
        Operation::One(
            Request::Minor { .. }
                | Request::Merge { .. }
                | Request::Major { .. }
                | Request::Split { .. }
                | Request::Move { .. }
                | Request::Sweep
                | Request::OracleRestart
                | Request::Raw { .. }
                | Request::Checkpoint
        )
    )
}

/// Whether a client may ask this.
#[inline(always)]
fn may_ask(admin: Option<u32>, client: u32, operation: &Operation<'_>) -> bool
    ensures { result ≡ tables.may_ask admin client (operation_of operation.now) }
{
    match admin {
        None => true,
        Some(admin) => admin == client || !is_upkeep(operation),
    }
}

/// The refusal of a name of nothing.
fn unknown(name: Name) -> Refusal
    ensures { result ≡ tables.unknown name }
{
    match name {
        Name::Session(_) => Refusal::UnknownSession,
        Name::Cleaner(_) => Refusal::UnknownCleaner,
        Name::Collector(_) => Refusal::UnknownCollector,
    }
}

impl Owners {
    /// Nothing is open.
    pub fn new(alloc: Global) -> Owners
        ensures none { (client : ℕ) (name : NameOf) → owns (table_of result) client name ≡ false }
        ensures empty { table_of result ≡ tables.nobodys }
    {
        Owners {
            sessions: Holdings::new(alloc),
            cleaners: Holdings::new(alloc),
            collectors: Holdings::new(alloc),
        }
    }

    /// Whether a name is this client's.
    #[inline(always)]
    pub fn has(&self, client: u32, name: Name) -> bool
        ensures { result ≡ owns (table_of self.now) client name }
    {
        match name {
            Name::Session(start) => self.sessions.has(client, start),
            Name::Cleaner(number) => self.cleaners.has(client, number),
            Name::Collector(number) => self.collectors.has(client, number),
        }
    }

    /// Whether a client has as many as it may of this kind, if there is a kind.
    #[inline(always)]
    fn has_most(&self, client: u32, kind: Option<Kind>) -> bool
        ensures { result ≡ tables.has_most (table_of self.now) client kind }
    {
        match kind {
            Some(Kind::Session) => self.sessions.has_as_many(client, MOST_SESSIONS),
            Some(Kind::Cleaner) => self.cleaners.has_as_many(client, MOST_CLEANERS),
            Some(Kind::Collector) => self.collectors.has_as_many(client, MOST_COLLECTORS),
            None => false,
        }
    }

    /// The refusal of a name that isn't the client's.
    #[inline(always)]
    fn name_refusal(&self, client: u32, name: Option<Name>) -> Option<Refusal>
        ensures { result ≡ tables.name_refusal (table_of self.now) client name }
    {
        let name = name?;
        if self.has(client, name) {
            return None;
        }
        Some(unknown(name))
    }

    /// The refusal of a client's operation, if it is refused without the machine: `BadRequest` for what only the
    /// administrator may ask, `TooManySessions` if the client has as many as it may of what the operation would give,
    /// and `UnknownSession`, `UnknownCleaner` or `UnknownCollector` for a name that isn't the client's.
    #[inline(always)]
    pub fn refusal_for(
        &self,
        admin: Option<u32>,
        client: u32,
        operation: &Operation<'_>,
    ) -> Option<Refusal>
        ensures { result ≡ tables.refusal_for admin (table_of self.now) client
            (operation_of operation.now) }
    {
        if !may_ask(admin, client, operation) {
            return Some(Refusal::BadRequest);
        }
        if self.has_most(client, given_kind(operation)) {
            return Some(Refusal::TooManySessions);
        }
        self.name_refusal(client, named(operation))
    }

    /// Takes room for one more name of this kind, if there is a kind.
    #[inline(always)]
    pub fn reserve(&mut self, kind: Option<Kind>) -> Result<(), AllocError>
        ensures same { table_of self.new ≡ table_of self.old }
        ensures room { OnOk result (tables.HasRoom self.new kind) }
        ensures needed { OnErr result (is_some kind ≡ true) }
    {
        match kind {
            Some(Kind::Session) => self.sessions.reserve(),
            Some(Kind::Cleaner) => self.cleaners.reserve(),
            Some(Kind::Collector) => self.collectors.reserve(),
            None => Ok(()),
        }
    }

    /// Notes that a name was given to a client. There is room for it.
    #[inline(always)]
    fn insert(&mut self, client: u32, name: Name)
        requires room { tables.HasRoom self.old (Some (names.kind_of name)) }
        ensures { (c : ℕ) (n : NameOf) → owns (table_of self.new) c n
            ≡ (owns (table_of self.old) c n || (nat_eq client c && names.same_name name n)) }
    {
        match name {
            Name::Session(start) => self.sessions.insert(client, start),
            Name::Cleaner(number) => self.cleaners.insert(client, number),
            Name::Collector(number) => self.collectors.insert(client, number),
        }
    }

    /// Notes that a name is a client's no more.
    #[inline(always)]
    pub fn remove(&mut self, client: u32, name: Name)
        ensures held { (c : ℕ) (n : NameOf) → owns (table_of self.new) c n
            ≡ (owns (table_of self.old) c n && not (nat_eq client c && names.same_name name n)) }
        ensures room { tables.KeepsRoom self.old self.new }
        ensures fewer { owns (table_of self.old) client name ≡ true
            → tables.held_in (table_of self.new) client
            < tables.held_in (table_of self.old) client }
    {
        match name {
            Name::Session(start) => self.sessions.remove(client, start),
            Name::Cleaner(number) => self.cleaners.remove(client, number),
            Name::Collector(number) => self.collectors.remove(client, number),
        }
    }

    /// Notes what was closed, and what an answer to a client gave: a name of this kind, if there is a kind. There is
    /// room for it.
    #[inline(always)]
    pub fn note(&mut self, client: u32, closed: Option<Name>, kind: Option<Kind>, answer: &Answer)
        requires room { tables.HasRoom self.old kind }
        ensures { (c : ℕ) (n : NameOf) → owns (table_of self.new) c n
            ≡ ((owns (table_of self.old) c n && not (nat_eq client c && names.is_name closed n))
            || (nat_eq client c
            && names.is_name (names.answer_name kind (answer_of answer.now)) n)) }
    {
        if let Some(name) = closed {
            self.remove(client, name);
        }
        if let Some(name) = given(kind, answer) {
            self.insert(client, name);
        }
    }

    /// A session of a client, if it has one.
    pub fn session_of(&self, client: u32) -> Option<Stamp>
        ensures some { IfSome result (λ start.
            owns (table_of self.now) client (NameOf.Session start) ≡ true) }
        ensures none { IfNone result ((start : ℕ)
            → owns (table_of self.now) client (NameOf.Session start) ≡ false) }
    {
        self.sessions.first_of(client)
    }

    /// What a client has of cleaners and collectors becomes another's.
    pub fn pass(&mut self, from: u32, to: u32)
        ensures { (c : ℕ) (n : NameOf) → owns (table_of self.new) c n
            ≡ ((owns (table_of self.old) c n && (names.is_session n || not (nat_eq from c)))
            || (nat_eq to c && owns (table_of self.old) from n && not (names.is_session n))) }
    {
        if from == to {
            return;
        }
        self.cleaners.pass(from, to);
        self.collectors.pass(from, to);
    }
}
