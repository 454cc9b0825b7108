//! Why the server itself refuses what a stream was asked.

ghost use Rattle.std.specs.Prelude.{◌≡◌, IfOk, IsUtf8};
ghost use Rattle.desk_ground.specs.Reasons.{error_of};

use js_base::{ApiError, NoMemory};
use js_model::refusals::{no_stream, store_fault, stream_stopped};
use std::alloc::Global;

/// Why the server itself refuses what a stream was asked.
#[derive(Clone, Copy, Debug, PartialEq, Eq)]
pub enum Reason {
    /// There is no such stream, or its place keeps another incarnation.
    NoStream,
    /// The volume of its place failed.
    StoreFault,
    /// The volume of its place failed before, which may have been as room was made for what was asked.
    StreamStopped,
}

impl Reason {
    /// The refusal. Its text is UTF-8.
    pub fn refusal(self, alloc: Global) -> Result<ApiError, NoMemory>
        ensures value { IfOk result (λ refusal. refusal ≡ error_of self) }
        ensures text { IfOk result (λ refusal. IsUtf8 refusal.text) }
    {
        match self {
            Reason::NoStream => no_stream(alloc),
            Reason::StoreFault => store_fault(alloc),
            Reason::StreamStopped => stream_stopped(alloc),
        }
    }
}
