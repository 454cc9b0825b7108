//! The fields of a JSON object.

ghost use Rattle.std.specs.Prelude.{◌≡◌, ◌<◌, ◌↔◌, Err, IfOk, IfSome, IsTrue, IsUtf8, length, option_map};
ghost use Rattle.std.specs.List.{All};
ghost use Rattle.serde_json.specs.Data.{no_members};
ghost use Rattle.serde_json.specs.Find.{as_object, get_member};
ghost use Rattle.serde_json.specs.View.{view};
ghost use Rattle.js_json.specs.Objects.{object_of};
ghost use Rattle.js_json.specs.Kinds.{FitsWord};
ghost use Rattle.js_json.specs.Fields.{field, flag_in, number_in, numbers_in, text_in, texts_in, time_in, part_in, is_number, is_given, or_bad};
ghost use Rattle.js_json.specs.Members.{members};
ghost use Rattle.js_json.specs.Answers.{ReadsObject, Tells, Copies, part_seen, IsWrong};
ghost use Rattle.js_json.specs.declared.fault.JsonFault.TheVariants.{NoMemory as OutOfMemory};

use crate::fault::JsonFault;
use crate::kinds::{all_texts, all_wholes, is_something, time, whole};
use js_base::{Blob, List, Moment};
use serde_json::{Map, Value};
use std::alloc::Global;

/// The fields of a JSON object. If a name is in the object twice, its last value counts.
///
/// In each call that asks for a field, `None` says that it is absent or null, and `BadField` that its value has another type or is out of the
/// range that the call states. A field that nobody asks for may be anything.
#[derive(Drop, Debug)]
pub struct Fields {
    by_name: Map<String, Value>,
    alloc: Global,
}

/// The object that the bytes are. `NotJson` comes exactly if `serde_json` cannot read them, as when they are not UTF-8 or their arrays and
/// objects nest deeper than 127; `NotObject` comes exactly if they are another JSON value.
pub fn object(alloc: Global, body: &[u8]) -> Result<Fields, JsonFault>
    ensures reading { ReadsObject result (object_of body.now) }
    ensures memory { result ≡ Err OutOfMemory → 0 < length body.now }
{
    match Value::from_slice(alloc, body) {
        Ok(value) => fields_of(alloc, value).ok_or(JsonFault::NotObject),
        Err(error) if error.is_memory() => Err(JsonFault::NoMemory),
        Err(_) => Err(JsonFault::NotJson),
    }
}

/// The fields of a value, if it is an object.
fn fields_of(alloc: Global, value: Value) -> Option<Fields>
    ensures value { option_map members result ≡ as_object (view value) }
{
    match value {
        Value::Object(by_name) => Some(Fields { by_name, alloc }),
        _ => None,
    }
}

impl Fields {
    /// True or false.
    #[tactic(auto, unfolding(crate::specs::Fields::flag_in))]
    pub fn flag(&self, name: &str) -> Result<Option<bool>, JsonFault>
        ensures reading { Tells result (flag_in name.now (members self.now)) }
    {
        match self.value(name) {
            Some(value) => self.told(name, value.as_bool()),
            None => Ok(None),
        }
    }

    /// An integer from -2^63 to 2^64 - 1. A number with a fraction or an exponent is wrong, whatever its value, and so is `-0`.
    #[tactic(auto, unfolding(crate::specs::Fields::number_in))]
    pub fn number(&self, name: &str) -> Result<Option<i128>, JsonFault>
        ensures reading { Tells result (number_in name.now (members self.now)) }
        ensures range { IfOk result (λ found. IfSome found FitsWord) }
    {
        match self.value(name) {
            Some(value) => self.told(name, whole(value)),
            None => Ok(None),
        }
    }

    /// A list of such integers.
    #[tactic(auto, unfolding(crate::specs::Fields::numbers_in))]
    pub fn numbers(&self, name: &str) -> Result<Option<List<i128>>, JsonFault>
        ensures reading { Copies result (numbers_in name.now (members self.now)) }
        ensures range { IfOk result (λ found. IfSome found (All FitsWord)) }
    {
        match self.value(name) {
            Some(value) => self.told(name, all_wholes(self.alloc, value)?),
            None => Ok(None),
        }
    }

    /// A text, in UTF-8.
    #[tactic(auto, unfolding(crate::specs::Fields::text_in))]
    pub fn text(&self, name: &str) -> Result<Option<Blob>, JsonFault>
        ensures reading { Copies result (text_in name.now (members self.now)) }
        ensures utf8 { IfOk result (λ found. IfSome found IsUtf8) }
    {
        match self.value(name) {
            Some(value) => match value.as_str() {
                Some(text) => Ok(Some(Blob::of(self.alloc, text.as_bytes())?)),
                None => Err(self.wrong(name)),
            },
            None => Ok(None),
        }
    }

    /// A list of texts, in UTF-8.
    #[tactic(auto, unfolding(crate::specs::Fields::texts_in))]
    pub fn texts(&self, name: &str) -> Result<Option<List<Blob>>, JsonFault>
        ensures reading { Copies result (texts_in name.now (members self.now)) }
        ensures utf8 { IfOk result (λ found. IfSome found (All IsUtf8)) }
    {
        match self.value(name) {
            Some(value) => self.told(name, all_texts(self.alloc, value)?),
            None => Ok(None),
        }
    }

    /// A moment from 1970 on and below 2^62 ns, in a text `YYYY-MM-DDTHH:MM:SS`, perhaps a dot and 1 to 9 digits, and `Z`, `+HH:MM` or
    /// `-HH:MM`. The date exists, hours are 00 to 23, minutes and seconds 00 to 59.
    #[tactic(auto, unfolding(crate::specs::Fields::time_in))]
    pub fn time(&self, name: &str) -> Result<Option<Moment>, JsonFault>
        ensures reading { Tells result (time_in name.now (members self.now)) }
    {
        match self.value(name) {
            Some(value) => self.told(name, time(value)),
            None => Ok(None),
        }
    }

    /// An object.
    #[tactic(auto, unfolding(crate::specs::Fields::part_in))]
    pub fn part(&self, name: &str) -> Result<Option<Fields>, JsonFault>
        ensures reading { Copies (part_seen result) (part_in name.now (members self.now)) }
    {
        match self.value(name) {
            Some(value) if value.is_object() => Ok(fields_of(self.alloc, value.clone()?)),
            Some(_) => Err(self.wrong(name)),
            None => Ok(None),
        }
    }

    /// Whether the field is a number of any kind: also one with a fraction or an exponent, one that does not fit in 64 bits, and `-0`, none of
    /// which is an integer.
    #[tactic(auto, unfolding(crate::specs::Fields::is_number))]
    pub fn is_number(&self, name: &str) -> bool
        ensures value { result ≡ is_number name.now (members self.now) }
    {
        match self.member(name) {
            Some(value) => value.is_number(),
            None => false,
        }
    }

    /// Whether the field says something: false exactly if it is absent, null, an empty text or an empty list.
    #[tactic(auto, unfolding(crate::specs::Fields::is_given))]
    pub fn given(&self, name: &str) -> bool
        ensures value { result ≡ is_given name.now (members self.now) }
    {
        match self.member(name) {
            Some(value) => is_something(value),
            None => false,
        }
    }

    /// Whether the object has no field.
    pub fn is_empty(&self) -> bool
        ensures value { IsTrue result ↔ (members self.now ≡ no_members) }
    {
        self.by_name.is_empty()
    }

    /// The value with this name, which may be null.
    fn member(&self, name: &str) -> Option<&Value>
        ensures value { option_map (λ value. view value.now) result ≡ get_member name.now (members self.now) }
    {
        self.by_name.get(name)
    }

    /// The field's value, unless it is null.
    fn value(&self, name: &str) -> Option<&Value>
        ensures value { option_map (λ value. view value.now) result ≡ field name.now (members self.now) }
    {
        match self.member(name) {
            Some(value) if !value.is_null() => Some(value),
            _ => None,
        }
    }

    /// The fault that the field is wrong.
    fn wrong(&self, name: &str) -> JsonFault
        ensures wrong { IsWrong name.now result }
    {
        match Blob::of(self.alloc, name.as_bytes()) {
            Ok(name) => JsonFault::BadField(name),
            Err(_) => JsonFault::NoMemory,
        }
    }

    /// The value that was found, or else the fault that the field is wrong.
    fn told<T>(&self, name: &str, found: Option<T>) -> Result<Option<T>, JsonFault>
        ensures told { Tells result (or_bad name.now found) }
    {
        match found {
            Some(found) => Ok(Some(found)),
            None => Err(self.wrong(name)),
        }
    }
}
