//! How others look at a stream.

ghost use Rattle.std.specs.Prelude.{◌≡◌, ◌^◌, ◌<◌, ◌≤◌, filter, find, length, nat_le, option_map, sum_by, None};
ghost use Rattle.std.specs.List.{last_or};
ghost use Rattle.js_model.specs.declared.stream.Stream.{Stream};
ghost use Rattle.js_model.specs.Streams.{size};
ghost use Rattle.stream_view.specs.Heads.{head_of};
ghost use Rattle.stream_view.specs.Counting.{counts_of, seqs_on};
ghost use Rattle.stream_view.specs.Order.{IsInOrder};

use crate::counts::Counts;
use crate::head::Head;
use js_base::Moment;
use js_model::StreamConfig;

/// A stream that can be looked at: what its limits and its retention go by. No call takes memory.
pub trait View {
    /// The stream that is seen.
    ghost stream: { Self → Stream };

    /// Its configuration.
    fn config(&self) -> &StreamConfig
        ensures value { result.now ≡ (stream self.now).config };

    /// The last moment that it has seen.
    fn moment(&self) -> Moment
        ensures value { result ≡ (stream self.now).moment };

    /// The last sequence that it gave, 0 before the first. The sequences of its messages ascend up to it.
    fn last(&self) -> u64
        ensures value { result ≡ (stream self.now).last }
        ensures order { IsInOrder (stream self.now) };

    /// How many messages it has.
    fn count(&self) -> u64
        ensures value { result ≡ length (stream self.now).messages }
        ensures bound { result < 2 ^ 32 };

    /// The sizes of its messages together, as they count against `max_bytes`.
    fn bytes(&self) -> u64
        ensures value { result ≡ sum_by size (stream self.now).messages }
        ensures bound { result ≤ 2 ^ 53 };

    /// The first message from this sequence on.
    fn at_or_after(&self, seq: u64) -> Option<Head<'_>>
        ensures value { result ≡ option_map head_of (find (λ m. nat_le seq m.seq) (stream self.now).messages) };

    /// The last message up to this sequence.
    fn at_or_before(&self, seq: u64) -> Option<Head<'_>>
        ensures value { result ≡ option_map head_of (last_or None (filter (λ m. nat_le m.seq seq) (stream self.now).messages)) };

    /// How many messages of this subject there are, and the sequences of the first and the last. `None` if there is none.
    fn of(&self, subject: &[u8]) -> Option<Counts>
        ensures value { result ≡ counts_of (seqs_on (stream self.now) subject.now) };
}
