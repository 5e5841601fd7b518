//! Audits of all orders of the steps of a client that stops, a cleaner and a collector.

use crate::tests::{MemServer, new_server};
use audit::Audit;
use cell_key::Refusal;
use request_codec::{Reply, Request, decode_request};
use si_model::{CleanStart, Found, Progress};
use std::alloc::Global;
use std::test::Fail;
use testing::FILE_LIMIT;
use testing::rows::TRANSFER;

/// The number of the transfer's exchanges up to the write of its first cell.
const FIRST_WRITE: usize = 12;

/// Set 3 Joe bal 9
const SET_JOE: &[u8] = b"\x03\0\0\0\0\0\0\0\x03\0\0\0\x03Joe\0\0\0\x03bal\0\0\0\x019";

/// Delete 3 Joe bal
const DELETE_JOE: &[u8] = b"\x13\0\0\0\0\0\0\0\x03\0\0\0\x03Joe\0\0\0\x03bal";

/// Step 3
const STEP: &[u8] = b"\x04\0\0\0\0\0\0\0\x03";

/// Stop 3
const STOP: &[u8] = b"\x05\0\0\0\0\0\0\0\x03";

/// CleanBegin Bob bal
const CLEAN_BOB: &[u8] = b"\x06\0\0\0\x03Bob\0\0\0\x03bal";

/// CleanBegin Joe bal
const CLEAN_JOE: &[u8] = b"\x06\0\0\0\x03Joe\0\0\0\x03bal";

/// CleanBegin Joe bal, CleanStep 1, CleanStep 1
const CLEANER: [&[u8]; 3] = [
    CLEAN_JOE,
    b"\x07\0\0\0\0\0\0\0\x01",
    b"\x07\0\0\0\0\0\0\0\x01",
];

/// CollectBegin, CollectStep 1 2, CollectStep 1 1000
const COLLECTOR: [&[u8]; 3] = [
    b"\x08",
    b"\x09\0\0\0\0\0\0\0\x01\0\0\0\x02",
    b"\x09\0\0\0\0\0\0\0\x01\0\0\x03\xE8",
];

/// The number of steps of the whole transfer.
const ALL_STEPS: u8 = 5;

/// The reason why a run of requests is aborted.
#[derive(Debug, Drop)]
enum Trouble {
    /// The server or the audit ran out of memory.
    Refused(Refusal),
    /// The audit rejects a reply, or a body is malformed.
    WrongReply,
}

impl From<Refusal> for Trouble {
    fn from(refusal: Refusal) -> Trouble {
        Trouble::Refused(refusal)
    }
}

/// A server, and the audit of its replies.
#[derive(Drop)]
struct Audited {
    server: Box<MemServer>,
    audit: Box<Audit>,
}

impl Audited {
    fn new(alloc: Global) -> Result<Audited, Refusal> {
        let server = new_server(alloc, FILE_LIMIT)?;
        let audit = Box::new(alloc, Audit::new(alloc)?)?;
        Ok(Audited { server, audit })
    }

    /// The reply to a request, if the audit accepts it.
    fn ask_for(&mut self, request: Request<'_>) -> Result<Reply, Trouble> {
        let reply = self.server.answer(request);
        if self.audit.take(&request, &reply)? {
            Ok(reply)
        } else {
            Err(Trouble::WrongReply)
        }
    }

    /// The same for a request's body.
    fn ask(&mut self, body: &[u8]) -> Result<Reply, Trouble> {
        match decode_request(body) {
            Some(request) => self.ask_for(request),
            None => Err(Trouble::WrongReply),
        }
    }

    /// Takes a step of the transfer. Returns whether that was the commit.
    fn step(&mut self) -> Result<bool, Trouble> {
        let reply = self.ask(STEP)?;
        Ok(matches!(reply, Reply::Step(Progress::Committed(_))))
    }

    /// Cleans the lock of a cell, if there is one.
    fn clean(&mut self, body: &[u8]) -> Result<(), Trouble> {
        if let Reply::CleanBegin(CleanStart::Cleaner(cleaner, _)) = self.ask(body)? {
            self.ask_for(Request::CleanStep { cleaner })?;
            self.ask_for(Request::CleanStep { cleaner })?;
        }
        Ok(())
    }

    /// The replies of a new session to reads of Bob's and Joe's cells.
    fn balances(&mut self) -> Result<(Reply, Reply), Trouble> {
        let Reply::Begin(start) = self.ask_for(Request::Begin)? else {
            return Err(Trouble::WrongReply);
        };
        let family = b"bal".as_slice();
        let bob = self.ask_for(Request::Get {
            start,
            row: b"Bob",
            family,
        })?;
        let joe = self.ask_for(Request::Get {
            start,
            row: b"Joe",
            family,
        })?;
        Ok((bob, joe))
    }
}

/// The value that a read found, or a word if it found none.
fn value_of(reply: &Reply) -> &[u8] {
    match reply {
        Reply::Get(Found::Value(value)) => value,
        Reply::Get(Found::Nothing) => b"nothing",
        _ => b"other",
    }
}

/// How a transfer continues: its write of Joe's cell, the cell's value after that, and the number of steps before it
/// stops.
#[derive(Clone, Copy)]
struct Client {
    write: &'static [u8],
    joe: &'static [u8],
    steps: u8,
}

/// Whether the digits of a number to the base 3 are an order: the client's turns, and three each of the cleaner and the
/// collector.
fn is_order(number: u32, steps: u8) -> bool {
    let mut rest = number;
    let mut turns = [0usize; 3];
    for _ in 0..usize::from(steps) + 6 {
        match rest % 3 {
            0 => turns[0] = turns[0].saturating_add(1),
            1 => turns[1] = turns[1].saturating_add(1),
            _ => turns[2] = turns[2].saturating_add(1),
        }
        rest /= 3;
    }
    turns == [usize::from(steps), 3, 3] && rest == 0
}

impl Audited {
    /// The client's turn: a step, and a stop if it was the last before the stop. Returns whether the step committed.
    fn go_on(&mut self, client: Client, turn: usize) -> Result<bool, Trouble> {
        let committed = self.step()?;
        if usize::from(client.steps).saturating_sub(turn) == 1 && client.steps < ALL_STEPS {
            self.ask(STOP)?;
        }
        Ok(committed)
    }

    /// The turn of the cleaner or the collector.
    fn ask_next(&mut self, bodies: &[&[u8]], turn: usize) -> Result<(), Trouble> {
        if let Some(body) = bodies.get(turn) {
            self.ask(body)?;
        }
        Ok(())
    }

    /// Takes all turns in this order. Returns whether the client has committed.
    fn take_turns(&mut self, client: Client, order: u32) -> Result<bool, Trouble> {
        let mut rest = order;
        let mut turns = [0usize; 3];
        let mut committed = false;
        for _ in 0..usize::from(client.steps) + 6 {
            match rest % 3 {
                0 => {
                    committed = self.go_on(client, turns[0])? || committed;
                    turns[0] = turns[0].saturating_add(1);
                }
                1 => {
                    self.ask_next(&CLEANER, turns[1])?;
                    turns[1] = turns[1].saturating_add(1);
                }
                _ => {
                    self.ask_next(&COLLECTOR, turns[2])?;
                    turns[2] = turns[2].saturating_add(1);
                }
            }
            rest /= 3;
        }
        Ok(committed)
    }
}

impl Audited {
    /// Begins the client's transfer, up to its first step; a client without steps stops at once.
    fn begin(&mut self, client: Client) -> Result<(), Trouble> {
        for (body, _) in &TRANSFER[..FIRST_WRITE] {
            self.ask(body)?;
        }
        self.ask(client.write)?;
        if client.steps == 0 {
            self.ask(STOP)?;
        }
        Ok(())
    }

    /// Takes all turns in this order, and cleans both cells. Returns whether the client has committed.
    fn finish(&mut self, client: Client, order: u32) -> Result<bool, Trouble> {
        let committed = self.take_turns(client, order)?;
        self.clean(CLEAN_BOB)?;
        self.clean(CLEAN_JOE)?;
        Ok(committed)
    }

    /// Whether a new session reads these values of Bob's and Joe's cells.
    fn has_balances(&mut self, bob: &[u8], joe: &[u8]) -> Result<bool, Trouble> {
        let (first, second) = self.balances()?;
        Ok(value_of(&first) == bob && value_of(&second) == joe)
    }
}

/// Whether the balances after an order are the new ones if the transfer has committed, and the old ones if it hasn't.
fn is_right(alloc: Global, client: Client, order: u32) -> Result<bool, Trouble> {
    let mut run = Audited::new(alloc)?;
    run.begin(client)?;
    if run.finish(client, order)? {
        return run.has_balances(b"3", client.joe);
    }
    run.has_balances(b"10", b"2")
}

/// The number of orders with this client, if all of them are right.
fn right_orders(alloc: Global, client: Client) -> Result<u32, Trouble> {
    let mut count = 0u32;
    for order in 0..LAST_ORDER {
        if is_order(order, client.steps) {
            if !is_right(alloc, client, order)? {
                return Err(Trouble::WrongReply);
            }
            count = count.saturating_add(1);
        }
    }
    Ok(count)
}

/// 3 to the power of 11, the turns of the longest orders.
const LAST_ORDER: u32 = 177_147;

/// Clients that set Joe's cell, and clients that delete it.
const SETS: Client = Client {
    write: SET_JOE,
    joe: b"9",
    steps: 0,
};

const DELETES: Client = Client {
    write: DELETE_JOE,
    joe: b"nothing",
    steps: 0,
};

/// The number of orders of clients of 0 to 3 steps.
const SHORT_ORDERS: [(u8, u32); 4] = [(0, 20), (1, 140), (2, 560), (3, 1_680)];

#[test]
fn clients_of_few_steps(rt: HostRuntime) -> Result<(), Fail> {
    for client in [SETS, DELETES] {
        for (steps, orders) in SHORT_ORDERS {
            let count = right_orders(rt.alloc(), Client { steps, ..client });
            assert!(rt;
                matches!(count, Ok(count) if count == orders),
                "{steps} steps"
            );
        }
    }
    Ok(())
}

#[test]
fn clients_of_four_steps(rt: HostRuntime) -> Result<(), Fail> {
    for client in [SETS, DELETES] {
        let count = right_orders(rt.alloc(), Client { steps: 4, ..client });
        assert!(rt; matches!(count, Ok(4_200)));
    }
    Ok(())
}

#[test]
fn clients_that_set_to_the_end(rt: HostRuntime) -> Result<(), Fail> {
    let client = Client { steps: 5, ..SETS };
    assert!(rt; matches!(right_orders(rt.alloc(), client), Ok(9_240)));
    Ok(())
}

#[test]
fn clients_that_delete_to_the_end(rt: HostRuntime) -> Result<(), Fail> {
    let client = Client {
        steps: 5,
        ..DELETES
    };
    assert!(rt; matches!(right_orders(rt.alloc(), client), Ok(9_240)));
    Ok(())
}
