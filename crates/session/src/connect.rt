//! The options of CONNECT.

ghost use Rattle.std.specs.Prelude.{◌≡◌};
ghost use Rattle.js_json.specs.Members.{members};
ghost use Rattle.session.specs.Connecting.{connect_options, flag_or, options_in};
ghost use Rattle.session.specs.Asking.{ReadsConnect, stop_by};

use crate::ending::Refusal;
use crate::stop::Stop;
use js_json::{Fields, JsonFault, object};
use std::alloc::Global;

/// What a client asks for by CONNECT.
#[derive(Clone, Copy)]
pub(crate) struct ConnectOptions {
    /// Whether its operations are answered by `+OK`.
    pub(crate) verbose: bool,
    /// Whether it is told of a wrong subject of a publish.
    pub(crate) pedantic: bool,
    /// Whether it hears its own messages.
    pub(crate) echo: bool,
    /// Whether it takes header blocks.
    pub(crate) headers: bool,
    /// Whether it is told, by a header block, if nobody took a message.
    pub(crate) no_responders: bool,
}

/// The options that the text of a CONNECT asks for. It is refused exactly if it is no JSON object, or one of the five options is neither
/// true nor false; null counts as absent, and what else stands there may be anything.
pub(crate) fn read_connect(alloc: Global, text: &[u8]) -> Result<ConnectOptions, Stop>
    ensures reads { ReadsConnect result (connect_options text.now) }
{
    match object(alloc, text) {
        Ok(fields) => options_in(&fields).ok_or(Stop::Refused(Refusal::BadConnect)),
        Err(fault) => Err(stop_by(fault)),
    }
}

/// Why the session ends for a text that is no JSON object.
fn stop_by(fault: JsonFault) -> Stop
    ensures value { result ≡ stop_by fault }
{
    match fault {
        JsonFault::NoMemory => Stop::NoMemory,
        JsonFault::NotJson | JsonFault::NotObject | JsonFault::BadField(_) => {
            Stop::Refused(Refusal::BadConnect)
        }
    }
}

/// The options that the fields ask for. `None` if one of them is neither true nor false.
fn options_in(fields: &Fields) -> Option<ConnectOptions>
    ensures value { result ≡ options_in (members fields.now) }
{
    Some(ConnectOptions {
        verbose: flag_or(true, "verbose", fields)?,
        pedantic: flag_or(true, "pedantic", fields)?,
        echo: flag_or(true, "echo", fields)?,
        headers: flag_or(false, "headers", fields)?,
        no_responders: flag_or(false, "no_responders", fields)?,
    })
}

/// The option with this name, or its default if it is absent. `None` if it is neither true nor false.
fn flag_or(default: bool, name: &str, fields: &Fields) -> Option<bool>
    ensures value { result ≡ flag_or default name.now (members fields.now) }
{
    match fields.flag(name) {
        Ok(flag) => Some(flag.unwrap_or(default)),
        Err(_) => None,
    }
}
