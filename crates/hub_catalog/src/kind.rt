//! What the catalog behind the turns stands for.

ghost use Rattle.histories.specs.Entries.{OfCatalog};
ghost use Rattle.histories.specs.Lawful.{IsCatalogHistory};
ghost use Rattle.hub_catalog.specs.Kinds.{CatalogIs};

use catalog::Catalog;
use turn_lock::{Lawful, Standing};

/// A catalog that many share: it stands for the calls that lead to it from the opening one, if no change of a stream is left open in it.
pub struct CatalogKind;

impl Lawful for CatalogKind {
    ghost lawful = { IsCatalogHistory };
}

impl Standing<Catalog> for CatalogKind {
    ghost opens = { λ catalog. OfCatalog catalog };

    ghost stands = { CatalogIs };

    ghost all_lawful = { λ opening entries catalog is. (catalog, is.stands) };
}
