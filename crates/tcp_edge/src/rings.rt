//! Links whose waits another thread may end.

use crate::bell::Bell;
use link_edge::{Link, MemLink, PipeLink};
use std::io::{Read, Write};
use std::sync::Arc;

/// A link that may have a bell, by which another thread ends its waits.
pub trait Rings: Link {
    /// The bell that ends its waits, if it has one. By default it has none, and its waits end as they do.
    fn bell(&self) -> Option<&Arc<Bell>> {
        None
    }
}

impl Rings for MemLink {}

impl<R: Read + Drop, W: Write + Drop> Rings for PipeLink<R, W> {}
