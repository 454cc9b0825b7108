//! What an object in a text says.

ghost use Rattle.std.specs.Prelude.{◌≡◌, option_map, IfOk};
ghost use Rattle.js_json.specs.Members.{members};
ghost use Rattle.js_json.specs.Objects.{object_of};
ghost use Rattle.js_base.specs.Names.{name_of};
ghost use Rattle.config_texts.specs.Reading.{allowed, name_in};

use js_base::{Name, NameFault, NoMemory};
use js_json::{Fields, JsonFault, object};
use std::alloc::Global;

/// The fields of a text that is an object.
pub(crate) fn fields_of(alloc: Global, text: &[u8]) -> Result<Option<Fields>, NoMemory>
    ensures value { IfOk result (λ fields. option_map members fields ≡ allowed (object_of text.now)) }
{
    match object(alloc, text) {
        Ok(fields) => Ok(Some(fields)),
        Err(JsonFault::NoMemory) => Err(NoMemory),
        Err(_) => Ok(None),
    }
}

/// The name that the text is.
fn name_of(alloc: Global, text: &[u8]) -> Result<Option<Name>, NoMemory>
    ensures value { IfOk result (λ name. name ≡ allowed (name_of text.now)) }
{
    match Name::read(alloc, text) {
        Ok(name) => Ok(Some(name)),
        Err(NameFault::NoMemory) => Err(NoMemory),
        Err(_) => Ok(None),
    }
}

/// The name that the fields say.
#[tactic(auto, unfolding(crate::specs::Reading::name_in))]
pub(crate) fn name_in(alloc: Global, fields: &Fields) -> Result<Option<Name>, NoMemory>
    ensures value { IfOk result (λ name. name ≡ name_in (members fields.now)) }
{
    match fields.text("name") {
        Ok(Some(text)) => name_of(alloc, text.as_slice()),
        Ok(None) => Ok(None),
        Err(JsonFault::NoMemory) => Err(NoMemory),
        Err(_) => Ok(None),
    }
}
