//! Streams of frames.

use crate::rows::{Row, TRANSFER};
use std::alloc::{AllocError, Global};

/// Writes the frame of a body.
pub fn push_frame(stream: &mut Vec<u8>, body: &[u8]) -> Result<(), AllocError> {
    let length = u32::try_from(body.len()).unwrap_or(0);
    stream.extend_from_slice(&length.to_be_bytes())?;
    stream.extend_from_slice(body)
}

/// The frames of some bodies.
pub fn stream_of(alloc: Global, bodies: &[&[u8]]) -> Result<Vec<u8>, AllocError> {
    let mut stream = Vec::new(alloc);
    for body in bodies {
        push_frame(&mut stream, body)?;
    }
    Ok(stream)
}

/// The streams of a row's requests and of its replies.
pub fn streams_of(alloc: Global, row: &Row) -> Result<(Vec<u8>, Vec<u8>), AllocError> {
    let mut requests = Vec::new(alloc);
    let mut replies = Vec::new(alloc);
    for (request, reply) in TRANSFER.iter().take(row.0) {
        push_frame(&mut requests, request)?;
        push_frame(&mut replies, reply)?;
    }
    for part in row.1 {
        for (request, reply) in *part {
            push_frame(&mut requests, request)?;
            push_frame(&mut replies, reply)?;
        }
    }
    Ok((requests, replies))
}
