//! Look-ups of the catalog.

ghost use Rattle.std.specs.Prelude.{◌≡◌, ◌<◌, IfSome, length};
ghost use Rattle.js_model.specs.Catalog.{At, catalog_call, telling};
ghost use Rattle.hub_catalog.specs.Calls.{look_call};

use catalog::Catalog;
use js_base::Name;
use js_model::PlaceAt;

/// What is looked for in the catalog.
#[derive(Clone, Copy)]
pub enum Look<'a> {
    /// The place of the stream that takes the subject.
    Find(&'a [u8]),
    /// The place of the stream of the name.
    ByName(&'a Name),
    /// The next used place after the number, in cyclic order.
    NextUsed(u32),
}

impl<'a> Look<'a> {
    /// The place that is looked for, if there is one.
    pub(crate) fn make(self, catalog: &Catalog) -> Option<PlaceAt>
        ensures found { catalog_call catalog.now (look_call self.entry) ≡ telling (At result) catalog.now }
        ensures within { IfSome result (λ at. at.place < length catalog.now) }
    {
        match self {
            Look::Find(subject) => catalog.find(subject),
            Look::ByName(name) => catalog.by_name(name),
            Look::NextUsed(after) => catalog.next_used(after),
        }
    }
}
