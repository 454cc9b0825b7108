//! What a client does to the stream `ORDERS` and its consumer `W`, and what it is told.

/// What a client does.
#[derive(Clone, Copy)]
pub(crate) struct Deed {
    pub(crate) said: &'static [u8],
    /// What it is given once it is done.
    pub(crate) answer: &'static [u8],
    /// What it is given if the volume fails.
    pub(crate) refusal: &'static [u8],
    /// What it is given if the volume fails as room is made for it; the refusal if it needs none.
    pub(crate) stop: &'static [u8],
    /// What is told of the stream and the consumer has this part once it is done, and not before.
    pub(crate) shown: &'static [u8],
    /// Whether the answer confirms it, so that it is on the volume then.
    pub(crate) is_confirmed: bool,
}

/// Questions for all that is known of the stream, its consumer and its messages. The last one publishes the message with the id, as a duplicate or anew.
pub(crate) const QUESTIONS: &[u8] =
    b"PUB $JS.API.STREAM.INFO.ORDERS _I 0\r\n\r\nPUB $JS.API.CONSUMER.INFO.ORDERS.W _I 0\r\n\r\nPUB $JS.API.STREAM.MSG.GET.ORDERS _I 9\r\n{\"seq\":1}\r\nPUB $JS.API.STREAM.MSG.GET.ORDERS _I 9\r\n{\"seq\":2}\r\nHPUB orders.b _I 28 29\r\nNATS/1.0\r\nNats-Msg-Id: k\r\n\r\nx\r\n";

/// Makes the consumer.
pub(crate) const CONSUMER: &[u8] =
    b"PUB $JS.API.CONSUMER.DURABLE.CREATE.ORDERS.W 78\r\n{\"config\":{\"ack_policy\":\"explicit\",\"durable_name\":\"W\"},\"stream_name\":\"ORDERS\"}\r\n";

/// Makes the consumer, and publishes a message.
pub(crate) const CONSUMER_AND_MESSAGE: &[u8] =
    b"PUB $JS.API.CONSUMER.DURABLE.CREATE.ORDERS.W 78\r\n{\"config\":{\"ack_policy\":\"explicit\",\"durable_name\":\"W\"},\"stream_name\":\"ORDERS\"}\r\nPUB orders.a 5\r\nhello\r\n";

/// Makes the consumer, and publishes a message, and then one with an id.
pub(crate) const CONSUMER_AND_MESSAGES: &[u8] =
    b"PUB $JS.API.CONSUMER.DURABLE.CREATE.ORDERS.W 78\r\n{\"config\":{\"ack_policy\":\"explicit\",\"durable_name\":\"W\"},\"stream_name\":\"ORDERS\"}\r\nPUB orders.a 5\r\nhello\r\nHPUB orders.b 28 29\r\nNATS/1.0\r\nNats-Msg-Id: k\r\n\r\nx\r\n";

/// Makes the stream.
pub(crate) const MAKE_STREAM: Deed = Deed {
    said: b"PUB $JS.API.STREAM.CREATE.ORDERS _I 41\r\n{\"name\":\"ORDERS\",\"subjects\":[\"orders.*\"]}\r\n",
    answer: b"MSG _I 1 505\r\n{\"config\":{\"discard\":\"old\",\"duplicate_window\":120000000000,\"max_age\":0,\"max_bytes\":-1,\"max_consumers\":-1,\"max_msg_size\":-1,\"max_msgs\":-1,\"max_msgs_per_subject\":-1,\"name\":\"ORDERS\",\"num_replicas\":1,\"retention\":\"limits\",\"storage\":\"file\",\"subjects\":[\"orders.*\"]},\"created\":\"2023-11-14T22:13:20.000000000Z\",\"state\":{\"bytes\":0,\"consumer_count\":0,\"first_seq\":0,\"first_ts\":\"0001-01-01T00:00:00Z\",\"last_seq\":0,\"last_ts\":\"0001-01-01T00:00:00Z\",\"messages\":0},\"type\":\"io.nats.jetstream.api.v1.stream_create_response\"}\r\n",
    refusal: b"MSG _I 1 124\r\n{\"error\":{\"code\":503,\"description\":\"store fault\",\"err_code\":20011},\"type\":\"io.nats.jetstream.api.v1.stream_create_response\"}\r\n",
    stop: b"MSG _I 1 127\r\n{\"error\":{\"code\":503,\"description\":\"stream stopped\",\"err_code\":20012},\"type\":\"io.nats.jetstream.api.v1.stream_create_response\"}\r\n",
    shown: b"\"messages\":0",
    is_confirmed: true,
};

/// Makes the consumer.
pub(crate) const MAKE_CONSUMER: Deed = Deed {
    said: b"PUB $JS.API.CONSUMER.DURABLE.CREATE.ORDERS.W _I 78\r\n{\"config\":{\"ack_policy\":\"explicit\",\"durable_name\":\"W\"},\"stream_name\":\"ORDERS\"}\r\n",
    answer: b"MSG _I 1 479\r\n{\"ack_floor\":{\"stream_seq\":0},\"config\":{\"ack_policy\":\"explicit\",\"ack_wait\":30000000000,\"deliver_policy\":\"all\",\"durable_name\":\"W\",\"max_ack_pending\":1000,\"max_deliver\":-1,\"max_waiting\":512,\"name\":\"W\",\"replay_policy\":\"instant\"},\"created\":\"2023-11-14T22:13:20.000000000Z\",\"delivered\":{\"consumer_seq\":0,\"stream_seq\":0},\"name\":\"W\",\"num_ack_pending\":0,\"num_pending\":0,\"num_redelivered\":0,\"num_waiting\":0,\"stream_name\":\"ORDERS\",\"type\":\"io.nats.jetstream.api.v1.consumer_create_response\"}\r\n",
    refusal: b"MSG _I 1 126\r\n{\"error\":{\"code\":503,\"description\":\"store fault\",\"err_code\":20011},\"type\":\"io.nats.jetstream.api.v1.consumer_create_response\"}\r\n",
    stop: b"MSG _I 1 129\r\n{\"error\":{\"code\":503,\"description\":\"stream stopped\",\"err_code\":20012},\"type\":\"io.nats.jetstream.api.v1.consumer_create_response\"}\r\n",
    shown: b"\"consumer_count\":1",
    is_confirmed: true,
};

/// Publishes the first message.
pub(crate) const PUBLISH: Deed = Deed {
    said: b"PUB orders.a _I 5\r\nhello\r\n",
    answer: b"MSG _I 1 27\r\n{\"seq\":1,\"stream\":\"ORDERS\"}\r\n",
    refusal: b"MSG _I 1 93\r\n{\"error\":{\"code\":503,\"description\":\"store fault\",\"err_code\":20011},\"seq\":0,\"stream\":\"ORDERS\"}\r\n",
    stop: b"MSG _I 1 96\r\n{\"error\":{\"code\":503,\"description\":\"stream stopped\",\"err_code\":20012},\"seq\":0,\"stream\":\"ORDERS\"}\r\n",
    shown: b"\"messages\":1",
    is_confirmed: true,
};

/// Publishes the second message, with an id.
pub(crate) const PUBLISH_WITH_ID: Deed = Deed {
    said: b"HPUB orders.b _I 28 29\r\nNATS/1.0\r\nNats-Msg-Id: k\r\n\r\nx\r\n",
    answer: b"MSG _I 1 27\r\n{\"seq\":2,\"stream\":\"ORDERS\"}\r\n",
    refusal: b"MSG _I 1 93\r\n{\"error\":{\"code\":503,\"description\":\"store fault\",\"err_code\":20011},\"seq\":0,\"stream\":\"ORDERS\"}\r\n",
    stop: b"MSG _I 1 96\r\n{\"error\":{\"code\":503,\"description\":\"stream stopped\",\"err_code\":20012},\"seq\":0,\"stream\":\"ORDERS\"}\r\n",
    shown: b"{\"duplicate\":true,\"seq\":2,\"stream\":\"ORDERS\"}",
    is_confirmed: true,
};

/// Removes both messages.
pub(crate) const PURGE: Deed = Deed {
    said: b"PUB $JS.API.STREAM.PURGE.ORDERS _I 0\r\n\r\n",
    answer: b"MSG _I 1 83\r\n{\"purged\":2,\"success\":true,\"type\":\"io.nats.jetstream.api.v1.stream_purge_response\"}\r\n",
    refusal: b"MSG _I 1 123\r\n{\"error\":{\"code\":503,\"description\":\"store fault\",\"err_code\":20011},\"type\":\"io.nats.jetstream.api.v1.stream_purge_response\"}\r\n",
    stop: b"MSG _I 1 123\r\n{\"error\":{\"code\":503,\"description\":\"store fault\",\"err_code\":20011},\"type\":\"io.nats.jetstream.api.v1.stream_purge_response\"}\r\n",
    shown: b"\"messages\":0",
    is_confirmed: true,
};

/// Pulls the first message. If the volume fails in its delivery, nothing is told.
pub(crate) const PULL: Deed = Deed {
    said: b"SUB _P 2\r\nPUB $JS.API.CONSUMER.MSG.NEXT.ORDERS.W _P 1\r\n1\r\n",
    answer: b"MSG orders.a 2 $JS.ACK.ORDERS.W.1.1.1.1700000000000000000.1 5\r\nhello\r\n",
    refusal: b"",
    stop: b"",
    shown: b"\"delivered\":{\"consumer_seq\":1,\"stream_seq\":1},\"name\":\"W\",\"num_ack_pending\":1",
    is_confirmed: false,
};

/// Acknowledges the first message. If the volume fails, nothing is told.
pub(crate) const ACKNOWLEDGE: Deed = Deed {
    said: b"PUB $JS.ACK.ORDERS.W.1.1.1.1700000000000000000.1 _I 4\r\n+ACK\r\n",
    answer: b"MSG _I 1 0\r\n\r\n",
    refusal: b"",
    stop: b"",
    shown: b"\"ack_floor\":{\"stream_seq\":1}",
    is_confirmed: true,
};

/// Lets the stream keep only its last message.
pub(crate) const UPDATE: Deed = Deed {
    said: b"PUB $JS.API.STREAM.UPDATE.ORDERS _I 38\r\n{\"max_msgs\":1,\"subjects\":[\"orders.*\"]}\r\n",
    answer: b"MSG _I 1 525\r\n{\"config\":{\"discard\":\"old\",\"duplicate_window\":120000000000,\"max_age\":0,\"max_bytes\":-1,\"max_consumers\":-1,\"max_msg_size\":-1,\"max_msgs\":1,\"max_msgs_per_subject\":-1,\"name\":\"ORDERS\",\"num_replicas\":1,\"retention\":\"limits\",\"storage\":\"file\",\"subjects\":[\"orders.*\"]},\"created\":\"2023-11-14T22:13:20.000000000Z\",\"state\":{\"bytes\":77,\"consumer_count\":1,\"first_seq\":2,\"first_ts\":\"2023-11-14T22:13:20.000000000Z\",\"last_seq\":2,\"last_ts\":\"2023-11-14T22:13:20.000000000Z\",\"messages\":1},\"type\":\"io.nats.jetstream.api.v1.stream_update_response\"}\r\n",
    refusal: b"MSG _I 1 124\r\n{\"error\":{\"code\":503,\"description\":\"store fault\",\"err_code\":20011},\"type\":\"io.nats.jetstream.api.v1.stream_update_response\"}\r\n",
    stop: b"MSG _I 1 127\r\n{\"error\":{\"code\":503,\"description\":\"stream stopped\",\"err_code\":20012},\"type\":\"io.nats.jetstream.api.v1.stream_update_response\"}\r\n",
    shown: b"\"max_msgs\":1",
    is_confirmed: true,
};

/// Drops the stream.
pub(crate) const DROP: Deed = Deed {
    said: b"PUB $JS.API.STREAM.DELETE.ORDERS _I 0\r\n\r\n",
    answer: b"MSG _I 1 73\r\n{\"success\":true,\"type\":\"io.nats.jetstream.api.v1.stream_delete_response\"}\r\n",
    refusal: b"MSG _I 1 124\r\n{\"error\":{\"code\":503,\"description\":\"store fault\",\"err_code\":20011},\"type\":\"io.nats.jetstream.api.v1.stream_delete_response\"}\r\n",
    stop: b"MSG _I 1 124\r\n{\"error\":{\"code\":503,\"description\":\"store fault\",\"err_code\":20011},\"type\":\"io.nats.jetstream.api.v1.stream_delete_response\"}\r\n",
    shown: b"stream not found",
    is_confirmed: true,
};
