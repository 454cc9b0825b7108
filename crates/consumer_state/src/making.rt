//! How a consumer is made, and how a kept one is restored.

ghost use Rattle.std.specs.Prelude.{◌≡◌, ◌≤◌, length, None, true, IfOk, IfErr, IsTrue, OnOk};
ghost use Rattle.js_model.specs.declared.consumer_config.AckPolicy.TheVariants.{Explicit};
ghost use Rattle.js_model.specs.declared.consumer_config.DeliverPolicy.TheVariants.{All as FromAll};
ghost use Rattle.js_model.specs.Configs.{is_consumer_config, same_ack_policy, same_deliver_policy};
ghost use Rattle.js_model.specs.Consumers.{is_work_queue, new_consumer};
ghost use Rattle.js_model.specs.Lists.{Between};
ghost use Rattle.js_model.specs.Refusals.{first_refusal};
ghost use Rattle.js_model.specs.Streams.{below_limit};
ghost use Rattle.consumer_need.specs.Stored.{HoldsStored};
ghost use Rattle.consumer_state.specs.Keeping.{IsRestorable};
ghost use Rattle.consumer_state.specs.Making.{made_at, policy_checks, own_checks, IsRefusal};

use crate::consumer::Consumer;
use crate::fault::MakeFault;
use crate::pulling::refused_memory;
use consumer_progress::ConsumerProgress;
use consumer_start::{Start, start_of};
use js_base::{ApiError, Blob, Moment, NoMemory};
use js_model::refusals::{too_many_subjects, work_queue_rule};
use js_model::{
    AckPolicy, Consumer as KeptConsumer, ConsumerConfig, DeliverPolicy, Pull, Retention,
    copy_consumer_config, copy_pull,
};
use pull_queue::PullQueue;
use std::alloc::Global;
use stream_view::View;

/// Whether the stream is a work queue.
fn is_work_queue<W: View>(stream: &W) -> bool
    ensures value { result ≡ is_work_queue (W.stream stream.now) }
{
    match stream.config().retention {
        Retention::WorkQueue => true,
        Retention::Limits | Retention::Interest => false,
    }
}

/// Whether every delivery waits for its own acknowledgement.
fn is_explicit(policy: AckPolicy) -> bool
    ensures value { result ≡ same_ack_policy policy Explicit }
{
    match policy {
        AckPolicy::Explicit => true,
        AckPolicy::None | AckPolicy::All => false,
    }
}

/// Whether the consumer begins with the first message.
fn is_from_all(policy: DeliverPolicy) -> bool
    ensures value { result ≡ same_deliver_policy policy FromAll }
{
    match policy {
        DeliverPolicy::All => true,
        DeliverPolicy::Last
        | DeliverPolicy::New
        | DeliverPolicy::ByStartSequence(_)
        | DeliverPolicy::ByStartTime(_)
        | DeliverPolicy::LastPerSubject => false,
    }
}

/// The refusal of a consumer's policies, if the rules of work queues forbid them.
pub fn policy_refusal<W: View>(
    alloc: Global,
    stream: &W,
    config: &ConsumerConfig,
) -> Result<Option<ApiError>, NoMemory>
    ensures value { IfOk result (λ refusal. refusal ≡ first_refusal (policy_checks (W.stream stream.now) config.now)) }
{
    if is_work_queue(stream) && !is_explicit(config.ack_policy) {
        return Ok(Some(work_queue_rule(alloc, b"ack_policy")?));
    }
    if is_work_queue(stream) && !is_from_all(config.deliver_policy) {
        return Ok(Some(work_queue_rule(alloc, b"deliver_policy")?));
    }
    Ok(None)
}

/// A queue of these pulls.
fn queue_of(alloc: Global, max_waiting: u64, pulls: &[Pull]) -> Result<PullQueue, NoMemory>
    requires few { length pulls.now ≤ max_waiting }
    ensures value { IfOk result (λ queue. queue ≡ record { max_waiting = max_waiting; pulls = pulls.now }) }
{
    let mut queue = PullQueue::new(alloc, max_waiting);
    for pull in pulls {
        queue.ask(copy_pull(pull)?).map_err(refused_memory)?;
    }
    Ok(queue)
}

impl Consumer {
    /// A new consumer of the stream, as it stands at the stream's moment. It is refused exactly if the rules of work queues forbid its policies, or if more
    /// than 65,536 sequences would be picked out. Where its deliver policy needs it, it goes through the stream's messages.
    pub fn make<W: View>(
        alloc: Global,
        name: &Blob,
        config: &ConsumerConfig,
        stream: &W,
    ) -> Result<Consumer, MakeFault>
        requires valid { IsTrue (is_consumer_config config.now) }
        ensures made { IfOk result (λ c. c ≡ new_consumer (W.stream stream.now) name.now config.now) }
        ensures holds { IfOk result (λ c. HoldsStored (W.stream stream.now) c) }
        ensures allowed { OnOk result (first_refusal (own_checks (W.stream stream.now) config.now) ≡ None) }
        ensures refused { IfErr result (IsRefusal (own_checks (W.stream stream.now) config.now)) }
    {
        if let Some(refusal) = policy_refusal(alloc, stream, config)? {
            return Err(MakeFault::Refused(refusal));
        }
        match start_of(alloc, stream, config)? {
            Some(start) => Ok(Consumer::at_start(alloc, name, config, stream.moment(), &start)?),
            None => Err(MakeFault::Refused(too_many_subjects(alloc)?)),
        }
    }

    /// A consumer that was made at a moment and begins there.
    fn at_start(
        alloc: Global,
        name: &Blob,
        config: &ConsumerConfig,
        now: Moment,
        start: &Start,
    ) -> Result<Consumer, NoMemory>
        requires ascend { Between (λ n. n) 0 start.now.cursor start.now.picks }
        requires once { below_limit 0 config.now.max_deliver ≡ true }
        requires few { length start.now.picks ≤ 65536 }
        ensures value { IfOk result (λ c. c ≡ made_at now name.now config.now start.now.picks start.now.cursor) }
    {
        Ok(Consumer {
            alloc,
            name: name.clone()?,
            made: now,
            config: copy_consumer_config(config)?,
            progress: ConsumerProgress::start(alloc, start.picks.as_slice(), start.cursor)?,
            pulls: PullQueue::new(alloc, config.max_waiting),
            mark: now,
        })
    }

    /// The consumer that was kept: no more pulls wait than its configuration allows.
    pub fn restore(alloc: Global, kept: &KeptConsumer) -> Result<Consumer, NoMemory>
        requires kept { IsRestorable kept.now }
        ensures value { IfOk result (λ c. c ≡ kept.now) }
    {
        Ok(Consumer {
            alloc,
            name: kept.name.clone()?,
            made: kept.made,
            config: copy_consumer_config(&kept.config)?,
            progress: ConsumerProgress::restore(alloc, kept)?,
            pulls: queue_of(alloc, kept.config.max_waiting, kept.waiting.as_slice())?,
            mark: kept.mark,
        })
    }
}
