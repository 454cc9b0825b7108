//! What the fields of an object say.

ghost use Rattle.std.specs.Prelude.{◌≡◌, IfOk};
ghost use Rattle.js_json.specs.Members.{members};
ghost use Rattle.js_json.specs.Fields.{time_in};
ghost use Rattle.consumer_config.specs.Reading.{natural_in, word_in, lacks_subject, starts, found};

use js_base::{Blob, Moment, NoMemory};
use js_json::{Fields, JsonFault};

/// The number in the field, and 0 if there is none or one below 0.
pub(crate) fn natural(fields: &Fields, name: &str) -> u64
    ensures value { result ≡ natural_in name.now (members fields.now) }
{
    match fields.number(name) {
        Ok(Some(number)) => u64::try_from(number).unwrap_or(0),
        _ => 0,
    }
}

/// The moment in the field, and `None` if there is none.
pub(crate) fn moment(fields: &Fields, name: &str) -> Option<Moment>
    ensures value { result ≡ found (time_in name.now (members fields.now)) }
{
    fields.time(name).unwrap_or(None)
}

/// The text in the field, and the empty one if there is none.
pub(crate) fn word(fields: &Fields, name: &str) -> Result<Blob, NoMemory>
    ensures value { IfOk result (λ word. word ≡ word_in name.now (members fields.now)) }
{
    match fields.text(name) {
        Ok(Some(text)) => Ok(text),
        Err(JsonFault::NoMemory) => Err(NoMemory),
        _ => Ok(Blob::empty()),
    }
}

/// Whether no deliver subject is given. If that field is itself wrong, one counts as given.
pub(crate) fn lacks_subject(fields: &Fields) -> Result<bool, NoMemory>
    ensures value { IfOk result (λ lacks. lacks ≡ lacks_subject (members fields.now)) }
{
    match fields.text("deliver_subject") {
        Ok(Some(text)) => Ok(text.is_empty()),
        Ok(None) => Ok(true),
        Err(JsonFault::NoMemory) => Err(NoMemory),
        Err(_) => Ok(false),
    }
}

/// Whether the consumer begins where the policy with this name says.
pub(crate) fn starts(policy: &[u8], fields: &Fields) -> Result<bool, NoMemory>
    ensures value { IfOk result (λ is. is ≡ starts policy.now (members fields.now)) }
{
    let text = word(fields, "deliver_policy")?;
    Ok(text.as_slice() == policy)
}
