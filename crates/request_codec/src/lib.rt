//! The bodies of requests and replies, encoded and decoded, and the cut of a stream into them.
#![tactic(auto)]

mod answers;
mod decode_replies;
mod encode_replies;
mod framer;
mod frames;
mod laws;
mod operations;
mod qualifiers;
mod read_bodies;
mod read_fields;
mod read_items;
mod read_lists;
mod read_scans;
mod read_told;
mod replies;
mod requests;
mod write_fields;
mod write_lists;
mod write_scans;
mod write_told;

pub use answers::{
    Answer, LONGEST_ANSWER, answer_length, decode_answer, encode_answer, push_answer,
};
pub use decode_replies::decode_reply;
pub use encode_replies::{encode_reply, push_reply, reply_length};
pub use framer::{Framer, LONGEST_BODY, Next};
pub use frames::split_frame;
pub use laws::{
    answers_fit, cut_goes_on, has_cut, limits, no_frame_begins_another, one_answer_a_body, one_cut,
    one_operation_a_body, one_reply_a_body, one_request_a_body, raw_is_longest, read_is_longest,
    replies_fit,
};
pub use operations::{Operation, decode_operation, encode_operation};
pub use replies::{LONGEST_REPLY, Reply};
pub use requests::{Request, decode_request, encode_request};
