//! What clients say to a server at port 4333, and what they are given.

/// The server's information for the session 1, with the host and the port of the command line.
pub(crate) const FIRST: &[u8] =
    b"INFO {\"client_id\":1,\"headers\":true,\"host\":\"127.0.0.1\",\"jetstream\":true,\"max_payload\":1048576,\"port\":4333,\"proto\":1,\"server_id\":\"JSBLOCK\",\"server_name\":\"jsblock\",\"version\":\"2.10.0\"}\r\n";

/// That for the session 2.
pub(crate) const SECOND: &[u8] =
    b"INFO {\"client_id\":2,\"headers\":true,\"host\":\"127.0.0.1\",\"jetstream\":true,\"max_payload\":1048576,\"port\":4333,\"proto\":1,\"server_id\":\"JSBLOCK\",\"server_name\":\"jsblock\",\"version\":\"2.10.0\"}\r\n";

/// Makes the stream `ORDERS`.
pub(crate) const MAKE_ORDERS: &[u8] =
    b"PUB $JS.API.STREAM.CREATE.ORDERS 41\r\n{\"name\":\"ORDERS\",\"subjects\":[\"orders.*\"]}\r\n";

/// Makes the stream `QUICK` at the first free place, and `SLOW` at the next.
pub(crate) const MAKE_TWO: &[u8] =
    b"PUB $JS.API.STREAM.CREATE.QUICK 37\r\n{\"name\":\"QUICK\",\"subjects\":[\"quick\"]}\r\nPUB $JS.API.STREAM.CREATE.SLOW 35\r\n{\"name\":\"SLOW\",\"subjects\":[\"slow\"]}\r\n";

/// Publishes `hello` to `ORDERS`, with a reply.
pub(crate) const PUBLISH: &[u8] =
    b"CONNECT {\"headers\":true,\"verbose\":false}\r\nSUB _I.1 1\r\nPUB orders.a _I.1 5\r\nhello\r\n";

/// The same by another client, whose replies come to a subject of its own.
pub(crate) const PUBLISH_ELSEWHERE: &[u8] =
    b"CONNECT {\"headers\":true,\"verbose\":false}\r\nSUB _I.2 2\r\nPUB orders.a _I.2 5\r\nhello\r\n";

/// The first message of `ORDERS` is asked for, by the client that published it.
pub(crate) const READ: &[u8] = b"PUB $JS.API.STREAM.MSG.GET.ORDERS _I.1 9\r\n{\"seq\":1}\r\n";

/// It is asked for by another client.
pub(crate) const READ_ELSEWHERE: &[u8] =
    b"CONNECT {\"headers\":true,\"verbose\":false}\r\nSUB _I.2 2\r\nPUB $JS.API.STREAM.MSG.GET.ORDERS _I.2 9\r\n{\"seq\":1}\r\n";

/// The answer to the first message published.
pub(crate) const PUBLISHED_FIRST: &[u8] = b"MSG _I.1 1 27\r\n{\"seq\":1,\"stream\":\"ORDERS\"}\r\n";

/// The answer to the second.
pub(crate) const PUBLISHED_SECOND: &[u8] =
    b"MSG _I.1 1 27\r\n{\"seq\":2,\"stream\":\"ORDERS\"}\r\n";

/// The answer to the first message, of the other client.
pub(crate) const PUBLISHED_FIRST_ELSEWHERE: &[u8] =
    b"MSG _I.2 2 27\r\n{\"seq\":1,\"stream\":\"ORDERS\"}\r\n";

/// The answer to the second, of the other client.
pub(crate) const PUBLISHED_SECOND_ELSEWHERE: &[u8] =
    b"MSG _I.2 2 27\r\n{\"seq\":2,\"stream\":\"ORDERS\"}\r\n";

/// What the client that published is given for both, if nobody else published before.
pub(crate) const PUBLISHED_AND_READ: &[u8] =
    b"MSG _I.1 1 27\r\n{\"seq\":1,\"stream\":\"ORDERS\"}\r\nMSG _I.1 1 158\r\n{\"message\":{\"data\":\"aGVsbG8=\",\"seq\":1,\"subject\":\"orders.a\",\"time\":\"2023-11-14T22:13:20.000000000Z\"},\"type\":\"io.nats.jetstream.api.v1.stream_msg_get_response\"}\r\n";

/// What the other client is given for the first message.
pub(crate) const MESSAGE_ELSEWHERE: &[u8] =
    b"MSG _I.2 2 158\r\n{\"message\":{\"data\":\"aGVsbG8=\",\"seq\":1,\"subject\":\"orders.a\",\"time\":\"2023-11-14T22:13:20.000000000Z\"},\"type\":\"io.nats.jetstream.api.v1.stream_msg_get_response\"}\r\n";
