//! What the fields of an object say.

ghost use Rattle.std.specs.Prelude.{◌≡◌, IfOk, IfSome, IsUtf8};
ghost use Rattle.js_json.specs.Members.{members};
ghost use Rattle.js_json.specs.Fields.{text_in, texts_in};
ghost use Rattle.stream_config.specs.Reading.{natural_in, age_in, word_in, found};

use js_base::{Blob, List, NoMemory};
use js_json::{Fields, JsonFault};

/// The number in the field, and 0 if there is none or one below 0.
pub(crate) fn natural(fields: &Fields, name: &str) -> u64
    ensures value { result ≡ natural_in name.now (members fields.now) }
{
    match fields.number(name) {
        Ok(Some(number)) => u64::try_from(number).unwrap_or(0),
        _ => 0,
    }
}

/// For how long messages stay, in nanoseconds: 0 for ever, and also if that field is wrong.
pub(crate) fn age(fields: &Fields) -> u64
    ensures value { result ≡ age_in (members fields.now) }
{
    let age = natural(fields, "max_age");
    if age < 1 << 62 { age } else { 0 }
}

/// The text in the field, and `None` if there is none.
pub(crate) fn text(fields: &Fields, name: &str) -> Result<Option<Blob>, NoMemory>
    ensures value { IfOk result (λ text. text ≡ found (text_in name.now (members fields.now))) }
{
    match fields.text(name) {
        Ok(text) => Ok(text),
        Err(JsonFault::NoMemory) => Err(NoMemory),
        Err(_) => Ok(None),
    }
}

/// The text in the field, and the empty one if there is none.
pub(crate) fn word(fields: &Fields, name: &str) -> Result<Blob, NoMemory>
    ensures value { IfOk result (λ word. word ≡ word_in name.now (members fields.now)) }
{
    Ok(text(fields, name)?.unwrap_or(Blob::empty()))
}

/// The list of texts in the field, and `None` if there is none.
pub(crate) fn texts(fields: &Fields, name: &str) -> Result<Option<List<Blob>>, NoMemory>
    ensures value { IfOk result (λ texts. texts ≡ found (texts_in name.now (members fields.now))) }
{
    match fields.texts(name) {
        Ok(texts) => Ok(texts),
        Err(JsonFault::NoMemory) => Err(NoMemory),
        Err(_) => Ok(None),
    }
}
