//! Which consumers a stream may get.

ghost use Rattle.std.specs.Prelude.{◌≡◌, min, unwrap_or};
ghost use Rattle.std.specs.List.{list_any};
ghost use Rattle.js_model.specs.declared.stream_config.Retention.TheVariants.{WorkQueue as Queue};
ghost use Rattle.js_model.specs.Configs.{same_retention};
ghost use Rattle.js_model.specs.Consumers.{filters_meet, is_rival};

use followed_stream::Follower;
use js_base::Blob;
use js_model::{ConsumerConfig, Retention, StreamConfig};
use subject_match::overlaps;

/// How many consumers any stream has at most.
const MOST_CONSUMERS: u64 = 256;

/// How many consumers a stream may have: its limit, and never more than 256.
pub(crate) fn max_consumers(config: &StreamConfig) -> u64
    ensures value { result ≡ min (unwrap_or config.now.max_consumers 256) 256 }
{
    let limit = config.max_consumers;
    limit.unwrap_or(MOST_CONSUMERS).min(MOST_CONSUMERS)
}

/// Whether the retention is that of a work queue.
pub(crate) fn is_work_queue(retention: Retention) -> bool
    ensures value { result ≡ same_retention retention Queue }
{
    match retention {
        Retention::WorkQueue => true,
        Retention::Limits | Retention::Interest => false,
    }
}

/// Whether a consumer of another name has a filter that meets that of the configuration.
pub(crate) fn has_rival(followers: &[Follower], name: &Blob, config: &ConsumerConfig) -> bool
    ensures value { result ≡ list_any (λ f. is_rival name.now config.now f.consumer) followers.now }
{
    followers
        .iter()
        .any(|follower| is_rival(follower, name, config))
}

fn is_rival(follower: &Follower, name: &Blob, config: &ConsumerConfig) -> bool
    ensures value { result ≡ is_rival name.now config.now follower.now.consumer }
{
    let own = follower.config().filter_subject.as_slice();
    !follower.is_named(name) && filters_meet(own, config.filter_subject.as_slice())
}

/// Whether some subject is matched by both filters. An empty one matches all.
fn filters_meet(one: &[u8], other: &[u8]) -> bool
    ensures value { result ≡ filters_meet one.now other.now }
{
    one.is_empty() || other.is_empty() || overlaps(one, other)
}
