//! The bodies of pull requests.

ghost use Rattle.std.specs.Prelude.{◌≡◌, ◌≤◌, option_map, option_and_then, IfOk, IfSome, IsTrue};
ghost use Rattle.js_json.specs.Members.{members};
ghost use Rattle.js_model.specs.Configs.{is_number};
ghost use Rattle.js_model.specs.Proper.{is_proper_ask};
ghost use Rattle.ack_parse.specs.Asks.{natural_in, truth_in, object_in, most_batch, batch_of, limit_of, just, ask_in, ask_of};

use js_base::{NoMemory, read_decimal};
use js_json::{Fields, JsonFault, object};
use js_model::Ask;
use std::alloc::Global;

/// The end of the numbers.
const NUMBERS_END: i128 = 1 << 62;

/// How many messages may be asked for.
const MOST_BATCH: u64 = (1 << 31) - 1;

/// The number below 2^62 in the field, 0 if it is absent. `None` if the field is wrong.
#[tactic(auto, unfolding(crate::specs::Asks::natural_in))]
pub(crate) fn natural_in(fields: &Fields, name: &str) -> Option<u64>
    ensures value { result ≡ natural_in name.now (members fields.now) }
    ensures small { IfSome result (λ n. IsTrue (is_number n)) }
{
    match fields.number(name) {
        Ok(None) => Some(0),
        Ok(Some(number)) if 0 <= number && number < NUMBERS_END => Some(number as u64),
        _ => None,
    }
}

/// The flag in the field, false if it is absent. `None` if the field is wrong.
#[tactic(auto, unfolding(crate::specs::Asks::truth_in))]
fn truth_in(fields: &Fields, name: &str) -> Option<bool>
    ensures value { result ≡ truth_in name.now (members fields.now) }
{
    match fields.flag(name) {
        Ok(None) => Some(false),
        Ok(Some(flag)) => Some(flag),
        Err(_) => None,
    }
}

/// The fields of a text that is a JSON object.
#[tactic(auto, unfolding(crate::specs::Asks::object_in))]
pub(crate) fn object_in(alloc: Global, text: &[u8]) -> Result<Option<Fields>, NoMemory>
    ensures value { IfOk result (λ fields. option_map members fields ≡ object_in text.now) }
{
    match object(alloc, text) {
        Ok(fields) => Ok(Some(fields)),
        Err(JsonFault::NoMemory) => Err(NoMemory),
        Err(_) => Ok(None),
    }
}

/// How many messages are asked for: 0 is 1.
fn batch_of(number: u64) -> Option<u64>
    ensures value { result ≡ batch_of number }
    ensures range { IfSome result (λ n. (1 ≤ n) × (n ≤ most_batch)) }
{
    match number {
        0 => Some(1),
        1..=MOST_BATCH => Some(number),
        _ => None,
    }
}

/// The limit, which is none for 0.
fn limit_of(number: u64) -> Option<u64>
    ensures value { result ≡ limit_of number }
{
    if number == 0 { None } else { Some(number) }
}

/// A pull request for so many messages, and for nothing else.
fn just(batch: u64) -> Ask
    ensures value { result ≡ just batch }
{
    Ask {
        batch,
        expires: 0,
        no_wait: false,
        max_bytes: None,
        heartbeat: 0,
    }
}

/// The pull request for one message.
pub(crate) fn just_one() -> Ask
    ensures value { result ≡ just 1 }
{
    just(1)
}

/// What the fields ask for.
#[tactic(auto, unfolding(crate::specs::Asks::ask_in))]
fn ask_in(fields: &Fields) -> Option<Ask>
    ensures value { result ≡ ask_in (members fields.now) }
    ensures proper { IfSome result (λ ask. IsTrue (is_proper_ask ask)) }
    ensures batch { IfSome result (λ ask. (1 ≤ ask.batch) × (ask.batch ≤ most_batch)) }
{
    let batch = batch_of(natural_in(fields, "batch")?)?;
    let expires = natural_in(fields, "expires")?;
    let heartbeat = natural_in(fields, "idle_heartbeat")?;
    let bytes = natural_in(fields, "max_bytes")?;
    let no_wait = truth_in(fields, "no_wait")?;
    Some(Ask {
        batch,
        expires,
        no_wait,
        max_bytes: limit_of(bytes),
        heartbeat,
    })
}

/// What the object that the text is asks for.
fn ask_of_object(alloc: Global, text: &[u8]) -> Result<Option<Ask>, NoMemory>
    ensures value { IfOk result (λ ask. ask ≡ option_and_then ask_in (object_in text.now)) }
    ensures proper { IfOk result (λ ask. IfSome ask (λ ask. IsTrue (is_proper_ask ask))) }
    ensures batch { IfOk result (λ ask. IfSome ask (λ ask. (1 ≤ ask.batch) × (ask.batch ≤ most_batch))) }
{
    match object_in(alloc, text)? {
        Some(fields) => Ok(ask_in(&fields)),
        None => Ok(None),
    }
}

/// What the body of a pull request asks for: an empty one for one message, a decimal for so many, and a JSON object for what its fields say.
/// `None` if the body is of no form: neither of these, with a field of a wrong type or out of its range, or with more than 2^31 - 1 messages.
#[tactic(auto, unfolding(crate::specs::Asks::ask_of))]
pub fn read_ask(alloc: Global, body: &[u8]) -> Result<Option<Ask>, NoMemory>
    ensures value { IfOk result (λ ask. ask ≡ ask_of body.now) }
    ensures proper { IfOk result (λ ask. IfSome ask (λ ask. IsTrue (is_proper_ask ask))) }
    ensures batch { IfOk result (λ ask. IfSome ask (λ ask. (1 ≤ ask.batch) × (ask.batch ≤ most_batch))) }
{
    if body.is_empty() {
        return Ok(Some(just_one()));
    }
    match read_decimal(body) {
        Ok(number) => Ok(batch_of(number).map(just)),
        Err(_) => ask_of_object(alloc, body),
    }
}
