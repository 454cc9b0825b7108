//! The calls of the JetStream API, and their names.

ghost use Rattle.std.specs.Prelude.{◌≡◌, IsUtf8};
ghost use Rattle.api_calls.specs.Names.{name_of};

/// A call of the JetStream API that is answered in JSON: one for each name that such an answer shows.
#[derive(Clone, Copy, Debug)]
pub enum ApiCall {
    AccountInfo,
    StreamCreate,
    StreamUpdate,
    StreamInfo,
    StreamDelete,
    StreamPurge,
    StreamNames,
    StreamList,
    StreamMsgGet,
    StreamMsgDelete,
    ConsumerCreate,
    ConsumerInfo,
    ConsumerDelete,
    ConsumerNames,
    ConsumerList,
}

impl ApiCall {
    /// Its name, as `stream_info`, which stands in the type that its answer shows.
    pub fn name(self) -> &'static [u8]
        ensures value { result.now ≡ name_of self }
        ensures utf8 { IsUtf8 result.now }
    {
        match self {
            ApiCall::AccountInfo => b"account_info",
            ApiCall::StreamCreate => b"stream_create",
            ApiCall::StreamUpdate => b"stream_update",
            ApiCall::StreamInfo => b"stream_info",
            ApiCall::StreamDelete => b"stream_delete",
            ApiCall::StreamPurge => b"stream_purge",
            ApiCall::StreamNames => b"stream_names",
            ApiCall::StreamList => b"stream_list",
            ApiCall::StreamMsgGet => b"stream_msg_get",
            ApiCall::StreamMsgDelete => b"stream_msg_delete",
            ApiCall::ConsumerCreate => b"consumer_create",
            ApiCall::ConsumerInfo => b"consumer_info",
            ApiCall::ConsumerDelete => b"consumer_delete",
            ApiCall::ConsumerNames => b"consumer_names",
            ApiCall::ConsumerList => b"consumer_list",
        }
    }
}
