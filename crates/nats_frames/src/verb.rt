//! The names of operations.

ghost use Rattle.std.specs.Prelude.{◌≡◌};
ghost use Rattle.std.specs.Str.{str_eq_ignore_ascii_case};
ghost use Rattle.nats_frames.specs.Reading.{verb_of};

/// An operation's name.
#[derive(Clone, Copy)]
pub(crate) enum Verb {
    Connect,
    Pub,
    HPub,
    Sub,
    Unsub,
    Ping,
    Pong,
}

/// Whether the word is the name, in any case.
fn is_named(word: &[u8], name: &[u8]) -> bool
    ensures { result ≡ str_eq_ignore_ascii_case word.now name.now }
{
    word.eq_ignore_ascii_case(name)
}

/// The operation of a name, in any case.
pub(crate) fn verb_of(word: &[u8]) -> Option<Verb>
    ensures { result ≡ verb_of word.now }
{
    if is_named(word, b"CONNECT") {
        Some(Verb::Connect)
    } else if is_named(word, b"PUB") {
        Some(Verb::Pub)
    } else if is_named(word, b"HPUB") {
        Some(Verb::HPub)
    } else if is_named(word, b"SUB") {
        Some(Verb::Sub)
    } else if is_named(word, b"UNSUB") {
        Some(Verb::Unsub)
    } else if is_named(word, b"PING") {
        Some(Verb::Ping)
    } else if is_named(word, b"PONG") {
        Some(Verb::Pong)
    } else {
        None
    }
}
