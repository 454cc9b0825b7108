//! JSON objects that are made member by member.

ghost use Rattle.std.specs.Prelude.{◌≡◌, true, false, OnOk, IfOk, IsUtf8};
ghost use Rattle.std.specs.List.{All};
ghost use Rattle.serde_json.specs.Data.{no_members, object, string, array, boolean, put as with_member};
ghost use Rattle.serde_json.specs.View.{view, items_view};
ghost use Rattle.serde_json.specs.Written.{members_have_float, compact_text};
ghost use Rattle.js_json.specs.Building.{shown, count, limit, count_unless_0, text_unless_empty, texts};
ghost use Rattle.js_json.specs.Times.{time_text};

use crate::time::time_text;
use js_base::{Blob, Moment, NoMemory};
use serde_json::{Map, Value, put};
use std::alloc::Global;
use std::str;

/// A JSON object that is made member by member. Its members stand in ascending order of their keys. A key that is added again has
/// the value that came last.
#[derive(Drop)]
pub struct ObjectBuilder {
    members: Map<String, Value>,
    alloc: Global,
}

/// A text as a value.
fn text_value(alloc: Global, text: &[u8]) -> Result<Value, NoMemory>
    requires utf8 { IsUtf8 text.now }
    ensures value { IfOk result (λ value. view value ≡ string text.now) }
{
    Ok(Value::try_from_str(alloc, str::from_utf8(text).unwrap_or(""))?)
}

/// Texts as the values of a list.
pub fn text_values(alloc: Global, list: &[Blob]) -> Result<Vec<Value>, NoMemory>
    requires utf8 { All IsUtf8 list.now }
    ensures values { IfOk result (λ values. items_view values.items ≡ texts list.now) }
{
    let mut values = Vec::new(alloc);
    for text in list {
        values.push(text_value(alloc, text.as_slice())?)?;
    }
    Ok(values)
}

impl ObjectBuilder {
    /// An object without members. It takes no memory.
    pub fn new(alloc: Global) -> ObjectBuilder
        ensures empty { shown result ≡ no_members }
    {
        ObjectBuilder {
            members: Map::new(alloc),
            alloc,
        }
    }

    /// Adds a member.
    pub fn value(&mut self, key: &str, value: Value) -> Result<(), NoMemory>
        ensures ok { OnOk result (shown self.new ≡ with_member key.now (view value) (shown self.old)) }
    {
        put(&mut self.members, self.alloc, key, value)?;
        Ok(())
    }

    /// Adds a number.
    pub fn number(&mut self, key: &str, n: u64) -> Result<(), NoMemory>
        ensures ok { OnOk result (shown self.new ≡ with_member key.now (count n) (shown self.old)) }
    {
        self.value(key, Value::from(n))
    }

    /// Adds a limit. None is -1.
    pub fn limit(&mut self, key: &str, n: Option<u64>) -> Result<(), NoMemory>
        ensures ok { OnOk result (shown self.new ≡ with_member key.now (limit n) (shown self.old)) }
    {
        match n {
            Some(n) => self.number(key, n),
            None => self.value(key, Value::from(-1i64)),
        }
    }

    /// Adds a number that is not 0.
    pub fn number_unless_0(&mut self, key: &str, n: u64) -> Result<(), NoMemory>
        ensures ok { OnOk result (shown self.new ≡ count_unless_0 key.now n (shown self.old)) }
    {
        if n == 0 { Ok(()) } else { self.number(key, n) }
    }

    /// Adds that something is so.
    pub fn truth(&mut self, key: &str) -> Result<(), NoMemory>
        ensures ok { OnOk result (shown self.new ≡ with_member key.now (boolean true) (shown self.old)) }
    {
        self.value(key, Value::from(true))
    }

    /// Adds a text.
    pub fn text(&mut self, key: &str, text: &[u8]) -> Result<(), NoMemory>
        requires utf8 { IsUtf8 text.now }
        ensures ok { OnOk result (shown self.new ≡ with_member key.now (string text.now) (shown self.old)) }
    {
        let value = text_value(self.alloc, text)?;
        self.value(key, value)
    }

    /// Adds a text that is not empty.
    pub fn text_unless_empty(&mut self, key: &str, text: &[u8]) -> Result<(), NoMemory>
        requires utf8 { IsUtf8 text.now }
        ensures ok { OnOk result (shown self.new ≡ text_unless_empty key.now text.now (shown self.old)) }
    {
        if text.is_empty() {
            Ok(())
        } else {
            self.text(key, text)
        }
    }

    /// Adds a moment.
    pub fn time(&mut self, key: &str, at: Moment) -> Result<(), NoMemory>
        ensures ok { OnOk result (shown self.new ≡ with_member key.now (string (time_text at)) (shown self.old)) }
    {
        crate::laws::law_time_text();
        // that a moment is in its range is what the proof takes from this call
        let _ = at.as_nanos();
        let text = time_text(self.alloc, at)?;
        self.text(key, text.as_slice())
    }

    /// Adds a list of texts.
    pub fn texts(&mut self, key: &str, list: &[Blob]) -> Result<(), NoMemory>
        requires utf8 { All IsUtf8 list.now }
        ensures ok { OnOk result (shown self.new ≡ with_member key.now (array (texts list.now)) (shown self.old)) }
    {
        let values = text_values(self.alloc, list)?;
        self.value(key, Value::Array(values))
    }

    /// Adds an object.
    pub fn part(&mut self, key: &str, part: ObjectBuilder) -> Result<(), NoMemory>
        ensures ok { OnOk result (shown self.new ≡ with_member key.now (object (shown part)) (shown self.old)) }
    {
        self.value(key, part.into_value())
    }

    /// The object as a value.
    pub fn into_value(self) -> Value
        ensures value { view result ≡ object (shown self) }
    {
        Value::Object(self.members)
    }

    /// The text of the object, without spaces. None of its numbers may have a fraction.
    pub fn into_text(self) -> Result<Blob, NoMemory>
        requires whole { members_have_float (shown self) ≡ false }
        ensures text { IfOk result (λ text. text ≡ compact_text (object (shown self))) }
    {
        let alloc = self.alloc;
        let text = self.into_value().to_string(alloc)?;
        Blob::of(alloc, text.as_bytes())
    }
}
