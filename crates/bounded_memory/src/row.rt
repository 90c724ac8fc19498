// A row of the method cache.

use long_names::Name;

/// The method that was found for a class and a selector.
#[derive(Clone, Copy)]
pub(crate) struct CachedRow {
    pub(crate) class: Name,
    pub(crate) selector: Name,
    pub(crate) method: Name,
}
