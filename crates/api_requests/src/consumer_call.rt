//! Which subjects are calls on a consumer.

ghost use Rattle.std.specs.Prelude.{◌≡◌, ◌==◌, option_map, position, IsUtf8};
ghost use Rattle.api_requests.specs.Words.{consumer_words};
ghost use Rattle.api_requests.specs.ConsumerCalls.{around_dot, tokens_of, may_filter, is_allowed, tokens_behind, called, creation_call, consumer_call};
ghost use Rattle.api_requests.specs.Names.{api_on_consumer, name_or_empty};
ghost use Rattle.api_requests.specs.Seen.{tokens_seen};

use api_calls::ApiCall;

/// A call on a consumer.
#[derive(Clone, Copy, Debug, PartialEq, Eq)]
pub(crate) enum ConsumerCall {
    Create,
    DurableCreate,
    Info,
    Delete,
    MsgNext,
}

/// What stands in a subject for a stream and its consumer, and the filter behind them.
#[derive(Clone, Copy)]
pub(crate) struct ConsumerTokens<'a> {
    pub(crate) stream: &'a [u8],
    pub(crate) consumer: &'a [u8],
    pub(crate) filter: Option<&'a [u8]>,
}

impl ConsumerCall {
    /// What stands before the stream's token in its subject.
    fn words(self) -> &'static [u8]
        ensures value { result.now ≡ consumer_words self }
    {
        match self {
            ConsumerCall::Create => b"$JS.API.CONSUMER.CREATE.",
            ConsumerCall::DurableCreate => b"$JS.API.CONSUMER.DURABLE.CREATE.",
            ConsumerCall::Info => b"$JS.API.CONSUMER.INFO.",
            ConsumerCall::Delete => b"$JS.API.CONSUMER.DELETE.",
            ConsumerCall::MsgNext => b"$JS.API.CONSUMER.MSG.NEXT.",
        }
    }

    /// Whether a filter may stand in its subject.
    fn may_filter(self) -> bool
        ensures value { result ≡ may_filter self }
    {
        match self {
            ConsumerCall::Create => true,
            ConsumerCall::DurableCreate
            | ConsumerCall::Info
            | ConsumerCall::Delete
            | ConsumerCall::MsgNext => false,
        }
    }

    /// The call of the API whose name its answer shows. A question for messages has no such answer.
    fn api_call(self) -> Option<ApiCall>
        ensures value { result ≡ api_on_consumer self }
    {
        match self {
            ConsumerCall::Create | ConsumerCall::DurableCreate => Some(ApiCall::ConsumerCreate),
            ConsumerCall::Info => Some(ApiCall::ConsumerInfo),
            ConsumerCall::Delete => Some(ApiCall::ConsumerDelete),
            ConsumerCall::MsgNext => None,
        }
    }

    /// The name that its answer shows, or nothing.
    pub(crate) fn name(self) -> &'static [u8]
        ensures value { result.now ≡ name_or_empty (api_on_consumer self) }
        ensures utf8 { IsUtf8 result.now }
    {
        match self.api_call() {
            Some(call) => call.name(),
            None => b"",
        }
    }

    /// Whether it may have these tokens.
    fn allows(self, tokens: &ConsumerTokens) -> bool
        ensures value { result ≡ is_allowed self (tokens_seen tokens.now) }
    {
        match tokens.filter {
            Some(_) => self.may_filter(),
            None => true,
        }
    }
}

/// The place of the first dot.
fn first_dot(text: &[u8]) -> Option<usize>
    ensures value { result ≡ position (λ byte. byte == 46) text.now }
{
    text.iter().position(|byte| *byte == b'.')
}

/// What stands before the first dot, and behind it.
fn around_dot(text: &[u8]) -> Option<(&[u8], &[u8])>
    ensures value { option_map (λ parts. (parts.0.now, parts.1.now)) result ≡ around_dot text.now }
{
    match first_dot(text) {
        Some(at) => Some((&text[..at], &text[at + 1..])),
        None => None,
    }
}

/// The tokens that the text is, if there are two at least.
fn tokens_of<'a>(text: &'a [u8]) -> Option<ConsumerTokens<'a>>
    ensures value { option_map tokens_seen result ≡ tokens_of text.now }
{
    let (stream, rest) = around_dot(text)?;
    match around_dot(rest) {
        Some((consumer, filter)) => Some(ConsumerTokens {
            stream,
            consumer,
            filter: Some(filter),
        }),
        None => Some(ConsumerTokens {
            stream,
            consumer: rest,
            filter: None,
        }),
    }
}

/// The tokens behind the words of this call, if the subject is one of it.
#[tactic(auto, unfolding(crate::specs::ConsumerCalls::tokens_behind))]
fn tokens_behind<'a>(call: ConsumerCall, subject: &'a [u8]) -> Option<ConsumerTokens<'a>>
    ensures value { option_map tokens_seen result ≡ tokens_behind call subject.now }
{
    let words = call.words();
    if !subject.starts_with(words) {
        return None;
    }
    let tokens = tokens_of(&subject[words.len()..])?;
    if call.allows(&tokens) {
        Some(tokens)
    } else {
        None
    }
}

/// This call and its tokens, if the subject is one of it.
fn called<'a>(call: ConsumerCall, subject: &'a [u8]) -> Option<(ConsumerCall, ConsumerTokens<'a>)>
    ensures value { option_map (λ x. (x.0, tokens_seen x.1)) result ≡ called call subject.now }
{
    match tokens_behind(call, subject) {
        Some(tokens) => Some((call, tokens)),
        None => None,
    }
}

/// The call that makes a consumer which the subject is, and its tokens.
fn creation_call<'a>(subject: &'a [u8]) -> Option<(ConsumerCall, ConsumerTokens<'a>)>
    ensures value { option_map (λ x. (x.0, tokens_seen x.1)) result ≡ creation_call subject.now }
{
    called(ConsumerCall::Create, subject).or(called(ConsumerCall::DurableCreate, subject))
}

/// The call on a consumer that the subject is, and its tokens.
pub(crate) fn consumer_call<'a>(subject: &'a [u8]) -> Option<(ConsumerCall, ConsumerTokens<'a>)>
    ensures value { option_map (λ x. (x.0, tokens_seen x.1)) result ≡ consumer_call subject.now }
{
    creation_call(subject)
        .or(called(ConsumerCall::Info, subject))
        .or(called(ConsumerCall::Delete, subject))
        .or(called(ConsumerCall::MsgNext, subject))
}
