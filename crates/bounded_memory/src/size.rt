// The sizes of objects in a core.
ghost use Rattle.std.specs.Prelude.{◌≡◌, ◌+◌, ◌<◌, ◌≤◌};
ghost use Rattle.long_names.specs.declared.limits.TheConstants.{MOST_FIELDS, MOST_LITERALS};
ghost use Rattle.bounded_memory.specs.Sizes.{words_for, entries_for};

use long_names::Kind;

/// What an object takes of a core: its 16-bit words, four more than its body has, and its entries for short names where it is
/// pinned.
#[derive(Clone, Copy)]
pub(crate) struct Size {
    pub(crate) words: u32,
    pub(crate) entries: u32,
    ghost few_words: { words ≤ MOST_FIELDS + 4 },
    ghost few_entries: { entries ≤ MOST_FIELDS + 2 },
}

impl Size {
    /// The size of an object of this kind and length. Only of a method do the literals count.
    pub(crate) fn new(kind: Kind, len: u32, literals: u32) -> Size
        requires len { len < MOST_FIELDS + 1 }
        requires literals { literals < MOST_LITERALS + 1 }
        ensures words { result.words ≡ words_for kind len literals }
        ensures entries { result.entries ≡ entries_for kind len literals }
    {
        match kind {
            Kind::Pointers => Size {
                words: 4 + len,
                entries: 2 + len,
            },
            Kind::Words => Size {
                words: 4 + len,
                entries: 2,
            },
            Kind::Bytes => Size {
                words: 4 + (len + 1) / 2,
                entries: 2,
            },
            Kind::Method => Size {
                words: 4 + (1 + literals + (len + 1) / 2),
                entries: 2 + literals,
            },
        }
    }
}
