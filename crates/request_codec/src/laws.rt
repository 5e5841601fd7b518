//! Laws of bodies and streams. Each is the contract of a function that does nothing.

ghost use Rattle.request_codec.specs.Answers.{longest_answer};
ghost use Rattle.request_codec.specs.Laws.{CutGoesOn, OneCut, HasCut, NoFrameBeginsAnother, OneRequestABody, OneReplyABody, OneOperationABody, OneAnswerABody, AnswersFit, ReadIsLongest, RepliesFit, RawIsLongest};
ghost use Rattle.request_codec.specs.Stream.{longest, longest_reply};
ghost use Rattle.std.specs.Prelude.{◌≡◌};

use crate::answers::LONGEST_ANSWER;
use crate::framer::LONGEST_BODY;
use crate::replies::LONGEST_REPLY;

/// A stream can be cut into bodies and a rest in only one way.
pub fn one_cut()
    ensures { OneCut }
{}

/// Each stream of bytes has a cut.
pub fn has_cut()
    ensures { HasCut }
{}

/// Frames handed out of a stream are a prefix of its cut, which continues in the remaining bytes.
pub fn cut_goes_on()
    ensures { CutGoesOn }
{}

/// A frame that is a prefix of another frame is that frame.
pub fn no_frame_begins_another()
    ensures { NoFrameBeginsAnother }
{}

/// Two requests with the same body are equal.
pub fn one_request_a_body()
    ensures { OneRequestABody }
{}

/// Two replies with the same body are equal.
pub fn one_reply_a_body()
    ensures { OneReplyABody }
{}

/// Two operations with the same body are equal.
pub fn one_operation_a_body()
    ensures { OneOperationABody }
{}

/// Two answers with the same body are equal.
pub fn one_answer_a_body()
    ensures { OneAnswerABody }
{}

/// The bytes of an answer within its limits fit their fields, and its frame is not longer than `LONGEST_ANSWER`.
pub fn answers_fit()
    ensures { AnswersFit }
{}

/// The answer of a Read that tells as much as it may has a frame of `LONGEST_ANSWER` bytes.
pub fn read_is_longest()
    ensures { ReadIsLongest }
{}

/// No reply within the limits of rows, families and values has a longer frame than `LONGEST_REPLY`.
pub fn replies_fit()
    ensures { RepliesFit }
{}

/// The reply of a raw read that finds a value of 65,536 bytes has a frame of `LONGEST_REPLY` bytes.
pub fn raw_is_longest()
    ensures { RawIsLongest }
{}

/// The public limits are equal to the limits of the definitions.
pub fn limits()
    ensures body { LONGEST_BODY ≡ longest }
    ensures reply { LONGEST_REPLY ≡ longest_reply }
    ensures answer { LONGEST_ANSWER ≡ longest_answer }
{}
