//! The names of the calls.

ghost use Rattle.std.specs.Prelude.{◌≡◌, IsUtf8};
ghost use Rattle.api_requests.specs.Names.{call_name};

use crate::call::{general_call, stream_call};
use crate::consumer_call::consumer_call;

/// The name of the call that the subject is, as `stream_info`, which the answer to it shows. It is empty if the subject is no call, and if the answer
/// shows no name, as that to a question for messages.
#[tactic(auto, unfolding(crate::specs::Names::call_name))]
pub fn call_name(subject: &[u8]) -> &'static [u8]
    ensures value { result.now ≡ call_name subject.now }
    ensures text { IsUtf8 result.now }
{
    if let Some(call) = general_call(subject) {
        return call.api_call().name();
    }
    if let Some((call, _)) = stream_call(subject) {
        return call.api_call().name();
    }
    match consumer_call(subject) {
        Some((call, _)) => call.name(),
        None => b"",
    }
}
