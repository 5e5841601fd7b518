//! The bodies of requests and replies.

use cell_key::Refusal;
use request_codec::{decode_reply, decode_request};
use std::alloc::Global;
use std::test::Fail;

const GET: &[u8] = b"\x02\0\0\0\0\0\0\0\x01\0\0\0\x01a\0\0\0\x03bal";

const SET: &[u8] = b"\x03\0\0\0\0\0\0\0\x01\0\0\0\x01r\0\0\0\x01c\0\0\0\x01v";

const RAW: &[u8] = b"\x11\0\0\0\x01m\0\0\0\x01c\x02\0\0\0\0\0\0\0\0\0\0\0\0\0\0\0\x09";

/// A scan from a cell to a row, of the keys of one family.
const SCAN: &[u8] = b"\x31\0\0\0\0\0\0\0\x01\x01\x01\0\0\0\x01a\0\0\0\x03bal\
    \x01\0\0\0\x01z\x01\0\0\0\x01c\0\0\x03\xE8";

/// A scan's reply: a value, a lock, and a value that isn't sent.
const SCANNED: &[u8] = b"\xB1\x02\0\0\0\x01r\0\0\0\x01c\0\0\0\x03\
    \0\0\0\x03Bob\0\0\0\x03bal\x01\0\0\0\x0210\
    \0\0\0\x03Joe\0\0\0\x03bal\x02\0\0\0\0\0\0\0\x03\
    \0\0\0\x01r\0\0\0\x01c\x03";

const RAW_FOUND: &[u8] = b"\x91\x01\0\0\0\0\0\0\0\x01\0\0\0\x06m\0\0c\0\0";

/// A request of each kind.
const REQUESTS: [&[u8]; 25] = [
    b"\x01",
    GET,
    SET,
    b"\x04\0\0\0\0\0\0\0\x01",
    b"\x05\0\0\0\0\0\0\0\x01",
    b"\x06\0\0\0\x01a\0\0\0\x03bal",
    b"\x07\0\0\0\0\0\0\0\x01",
    b"\x08",
    b"\x09\0\0\0\0\0\0\0\x01\0\0\0\x0A",
    b"\x0A\0\0\0\x01",
    b"\x0B\0\0\0\x02\0\0\0\x03",
    b"\x0C\0\0\0\x02",
    b"\x0D\0\0\0\x03Bob",
    b"\x0E\0\0\0\x02\x03",
    b"\x0F",
    b"\x10",
    RAW,
    b"\x12",
    b"\x13\0\0\0\0\0\0\0\x01\0\0\0\x01r\0\0\0\x01c",
    SCAN,
    b"\x31\0\0\0\0\0\0\0\x01\0\0\0\0\0\0\0\0",
    b"\x31\0\0\0\0\0\0\0\x01\0\x01\0\0\0\0\0\0\0\0\0\0\0\0\0\x01",
    b"\x31\0\0\0\0\0\0\0\x01\0\0\x01\0\0\0\x01z\0\0\0\0\x01",
    b"\x31\0\0\0\0\0\0\0\x01\0\0\0\x01\0\0\0\x01c\xFF\xFF\xFF\xFF",
    b"\x34\0\0\0\0",
];

/// Bodies outside the grammar of requests.
const NO_REQUESTS: [&[u8]; 37] = [
    b"",
    b"\0",
    b"\x13",
    b"\x14",
    b"\x01\0",
    b"\x02\0\0\0\0\0\0\0\x01\0\0\0\x01a\0\0\0\x03bal\0",
    b"\x02\0\0\0\0\0\0\0\x01\0\0\0\x01a\0\0\0\x03ba",
    b"\x02\0\0\0\0\0\0\0\x01\xFF\xFF\xFF\xFFa\0\0\0\x03bal",
    b"\x04\0\0\0\0\0\0\x01",
    b"\x06\0\0\0\x01a\0\0\0\x03bal\0",
    b"\x08\0",
    b"\x09\0\0\0\0\0\0\0\x01\0\0\x0A",
    b"\x0A\0\0\0\x01\0",
    b"\x0A\0\0\x01",
    b"\x0B\0\0\0\x02",
    b"\x0D\0\0\0\x03Bo",
    b"\x0E\0\0\0\x02",
    b"\x0E\0\0\0\x02\0\x03",
    b"\x0F\0",
    b"\x12\0",
    b"\x13\0\0\0\0\0\0\0\x01\0\0\0\x01r\0\0\0\x01c\0",
    b"\x13\0\0\0\0\0\0\0\x01\0\0\0\x01r",
    b"\x11\0\0\0\x01m\0\0\0\x01c\x04\0\0\0\0\0\0\0\0\0\0\0\0\0\0\0\x09",
    b"\x11\0\0\0\x01m\0\0\0\x01c\0\0\0\0\0\0\0\0\0\0\0\0\0\0\0\0\x09",
    b"\x11\0\0\0\x01m\0\0\0\x01c\x02\0\0\0\0\0\0\0\0\0\0\0\0\0\0\0",
    b"\x30",
    b"\x31",
    b"\x31\0\0\0\0\0\0\0\x01\x02\0\0\0\0\0\0\x01",
    b"\x31\0\0\0\0\0\0\0\x01\0\x02\0\0\0\0\0\x01",
    b"\x31\0\0\0\0\0\0\0\x01\0\0\0\0\0\0\0\x01\0",
    b"\x31\0\0\0\0\0\0\0\x01\0\0\0\0\0\0\x01",
    b"\x31\0\0\0\0\0\0\0\x01\0\x01\0\0\0\x01a\0\0\0\0\0\x01",
    b"\x31\0\0\0\0\0\0\0\x01\0\0\x01\0\0\0\x02z\0\0\0\0\x01",
    b"\x32\0\0\0\0\0\0\0\x01\0\0\0\0\0\0\0\x01",
    b"\x34",
    b"\x34\0\0\0",
    b"\x34\0\0\0\0\0",
];

#[test]
fn bodies_of_requests(rt: HostRuntime) -> Result<(), Fail> {
    for body in REQUESTS {
        assert!(rt; decode_request(body).is_some());
    }
    for body in NO_REQUESTS {
        assert!(rt; decode_request(body).is_none());
    }
    Ok(())
}

/// A reply of each kind.
const REPLIES: [&[u8]; 39] = [
    b"\x81\0\0\0\0\0\0\0\x01",
    b"\x82\0",
    b"\x82\x01\0\0\0\x0210",
    b"\x82\x02\0\0\0\0\0\0\0\x01",
    b"\x83",
    b"\x84\x01\0\x01\0\x02",
    b"\x84\x02\0\x01",
    b"\x84\x03\0\0\0\0\0\0\0\x02",
    b"\x84\x04\0\0\0\0\0\0\0\x04",
    b"\x84\x05",
    b"\x84\x06\0\x01\0\x02",
    b"\x85",
    b"\x86\0",
    b"\x86\x01\0\0\0\0\0\0\0\x01\0\0\0\0\0\0\0\x03",
    b"\x87\x01",
    b"\x87\x02\0\0\0\0\0\0\0\x04",
    b"\x87\x03",
    b"\x87\x04",
    b"\x88\0\0\0\0\0\0\0\x01\0\0\0\0\0\0\0\x05",
    b"\x89\x01",
    b"\x89\x02\0\0\0\x03Joe\0\0\0\x03bal\0\0\0\0\0\0\0\x03",
    b"\x89\x03",
    b"\x8A",
    b"\x8B",
    b"\x8C",
    b"\x8D\0\0\0\x02",
    b"\x8E",
    b"\x8F\0\0\0\0\0\0\0\x02",
    b"\x90",
    b"\x91\0",
    RAW_FOUND,
    b"\x92",
    b"\x93",
    b"\xB1\x01\0\0\0\0",
    b"\xB1\x02\0\0\0\x01r\0\0\0\x01c\0\0\0\0",
    SCANNED,
    b"\xB4",
    b"\xB4\0\0\0\x02ok",
    b"\xFF\x16",
];

/// Bodies outside the grammar of replies.
const NO_REPLIES: [&[u8]; 36] = [
    b"",
    b"\x01",
    b"\x82",
    b"\x82\x03",
    b"\x82\x01\xFF\xFF\xFF\xFF10",
    b"\x84\0",
    b"\x84\x07",
    b"\x86\0\0",
    b"\x87\x01\0",
    b"\x87\x05",
    b"\x88\0\0\0\0\0\0\0\x01",
    b"\x89\x04",
    b"\x8A\0",
    b"\x8D\0\0\x02",
    b"\x8F\0\0\0\x02",
    b"\x91",
    b"\x91\0\0",
    b"\x91\x01\0\0\0\0\0\0\0\x01\0\0\0\x06m\0\0c\0",
    b"\x91\x02",
    b"\x92\0",
    b"\x93\0",
    b"\xB1",
    b"\xB1\0\0\0\0\0",
    b"\xB1\x03\0\0\0\0",
    b"\xB1\x01\0\0\0\0\0",
    b"\xB1\x01\0\0\0\x01",
    b"\xB1\x02\0\0\0\x01r\0\0\0\0",
    b"\xB1\x02\0\0\0\0\0\0\0\x01c\0\0\0\0",
    b"\xB1\x01\0\0\0\x01\0\0\0\x01r\0\0\0\x01c\0",
    b"\xB1\x01\0\0\0\x01\0\0\0\x01r\0\0\0\x01c\x04",
    b"\xB1\x01\0\0\0\x01\0\0\0\x01r\0\0\0\x01:\x03",
    b"\xB1\x01\0\0\0\x01\0\0\0\x01r\0\0\0\x01c\x02\0\0\0\0\0\0\0\x01\0",
    b"\xB5",
    b"\xFF\0",
    b"\xFF\x18",
    b"\xFF\x16\0",
];

/// Whether a body decodes as a reply.
fn is_reply(alloc: Global, body: &[u8]) -> Result<bool, Refusal> {
    Ok(decode_reply(alloc, body)?.is_some())
}

#[test]
fn bodies_of_replies(rt: HostRuntime) -> Result<(), Fail> {
    for body in REPLIES {
        assert!(rt; is_reply(rt.alloc(), body)?);
    }
    for body in NO_REPLIES {
        assert!(rt; !is_reply(rt.alloc(), body)?);
    }
    Ok(())
}
