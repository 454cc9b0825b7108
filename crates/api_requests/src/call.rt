//! Which subjects are calls.

ghost use Rattle.std.specs.Prelude.{◌≡◌, option_map};
ghost use Rattle.api_requests.specs.Words.{general_words, stream_words};
ghost use Rattle.api_requests.specs.Calls.{general_call, token_behind, called, setup_call, message_call, consumers_call, stream_call};
ghost use Rattle.api_requests.specs.Names.{api_general, api_on_stream};

use api_calls::ApiCall;

/// A call on no stream of its own.
#[derive(Clone, Copy, Debug, PartialEq, Eq)]
pub(crate) enum GeneralCall {
    AccountInfo,
    StreamNames,
    StreamList,
}

/// A call on one stream.
#[derive(Clone, Copy, Debug, PartialEq, Eq)]
pub(crate) enum StreamCall {
    Create,
    Update,
    Info,
    Delete,
    Purge,
    MsgGet,
    MsgDelete,
    ConsumerNames,
    ConsumerList,
    /// A creation of a consumer that has no name in the subject.
    ConsumerCreate,
}

impl GeneralCall {
    /// Its subject.
    fn subject(self) -> &'static [u8]
        ensures value { result.now ≡ general_words self }
    {
        match self {
            GeneralCall::AccountInfo => b"$JS.API.INFO",
            GeneralCall::StreamNames => b"$JS.API.STREAM.NAMES",
            GeneralCall::StreamList => b"$JS.API.STREAM.LIST",
        }
    }

    /// Which call of the API it is.
    pub(crate) fn api_call(self) -> ApiCall
        ensures value { result ≡ api_general self }
    {
        match self {
            GeneralCall::AccountInfo => ApiCall::AccountInfo,
            GeneralCall::StreamNames => ApiCall::StreamNames,
            GeneralCall::StreamList => ApiCall::StreamList,
        }
    }
}

impl StreamCall {
    /// What stands before the stream's token in its subject.
    fn words(self) -> &'static [u8]
        ensures value { result.now ≡ stream_words self }
    {
        match self {
            StreamCall::Create => b"$JS.API.STREAM.CREATE.",
            StreamCall::Update => b"$JS.API.STREAM.UPDATE.",
            StreamCall::Info => b"$JS.API.STREAM.INFO.",
            StreamCall::Delete => b"$JS.API.STREAM.DELETE.",
            StreamCall::Purge => b"$JS.API.STREAM.PURGE.",
            StreamCall::MsgGet => b"$JS.API.STREAM.MSG.GET.",
            StreamCall::MsgDelete => b"$JS.API.STREAM.MSG.DELETE.",
            StreamCall::ConsumerNames => b"$JS.API.CONSUMER.NAMES.",
            StreamCall::ConsumerList => b"$JS.API.CONSUMER.LIST.",
            StreamCall::ConsumerCreate => b"$JS.API.CONSUMER.CREATE.",
        }
    }

    /// Which call of the API it is.
    pub(crate) fn api_call(self) -> ApiCall
        ensures value { result ≡ api_on_stream self }
    {
        match self {
            StreamCall::Create => ApiCall::StreamCreate,
            StreamCall::Update => ApiCall::StreamUpdate,
            StreamCall::Info => ApiCall::StreamInfo,
            StreamCall::Delete => ApiCall::StreamDelete,
            StreamCall::Purge => ApiCall::StreamPurge,
            StreamCall::MsgGet => ApiCall::StreamMsgGet,
            StreamCall::MsgDelete => ApiCall::StreamMsgDelete,
            StreamCall::ConsumerNames => ApiCall::ConsumerNames,
            StreamCall::ConsumerList => ApiCall::ConsumerList,
            StreamCall::ConsumerCreate => ApiCall::ConsumerCreate,
        }
    }
}

/// The call on no stream of its own that the subject is.
pub(crate) fn general_call(subject: &[u8]) -> Option<GeneralCall>
    ensures value { result ≡ general_call subject.now }
{
    if subject == GeneralCall::AccountInfo.subject() {
        Some(GeneralCall::AccountInfo)
    } else if subject == GeneralCall::StreamNames.subject() {
        Some(GeneralCall::StreamNames)
    } else if subject == GeneralCall::StreamList.subject() {
        Some(GeneralCall::StreamList)
    } else {
        None
    }
}

/// The one token behind these words.
fn token_behind<'a>(words: &[u8], subject: &'a [u8]) -> Option<&'a [u8]>
    ensures value { option_map (λ token. token.now) result ≡ token_behind words.now subject.now }
{
    if !subject.starts_with(words) {
        return None;
    }
    let token = &subject[words.len()..];
    if token.contains(&b'.') {
        None
    } else {
        Some(token)
    }
}

/// This call and its token, if the subject is one of it.
fn called(call: StreamCall, subject: &[u8]) -> Option<(StreamCall, &[u8])>
    ensures value { option_map (λ x. (x.0, x.1.now)) result ≡ called call subject.now }
{
    match token_behind(call.words(), subject) {
        Some(token) => Some((call, token)),
        None => None,
    }
}

/// The call on a stream as a whole that the subject is, and its token.
fn setup_call(subject: &[u8]) -> Option<(StreamCall, &[u8])>
    ensures value { option_map (λ x. (x.0, x.1.now)) result ≡ setup_call subject.now }
{
    called(StreamCall::Create, subject)
        .or(called(StreamCall::Update, subject))
        .or(called(StreamCall::Info, subject))
        .or(called(StreamCall::Delete, subject))
}

/// The call on a stream's messages that the subject is, and its token.
fn message_call(subject: &[u8]) -> Option<(StreamCall, &[u8])>
    ensures value { option_map (λ x. (x.0, x.1.now)) result ≡ message_call subject.now }
{
    called(StreamCall::Purge, subject)
        .or(called(StreamCall::MsgGet, subject))
        .or(called(StreamCall::MsgDelete, subject))
}

/// The list of a stream's consumers, or the creation that names none, that the subject is, and its token.
fn consumers_call(subject: &[u8]) -> Option<(StreamCall, &[u8])>
    ensures value { option_map (λ x. (x.0, x.1.now)) result ≡ consumers_call subject.now }
{
    called(StreamCall::ConsumerNames, subject)
        .or(called(StreamCall::ConsumerList, subject))
        .or(called(StreamCall::ConsumerCreate, subject))
}

/// The call on one stream that the subject is, and the token that stands in it for the stream.
pub(crate) fn stream_call(subject: &[u8]) -> Option<(StreamCall, &[u8])>
    ensures value { option_map (λ x. (x.0, x.1.now)) result ≡ stream_call subject.now }
{
    setup_call(subject)
        .or(message_call(subject))
        .or(consumers_call(subject))
}
