// Entries: what a core knows of an object.
use crate::flags::EntryFlags;
use long_names::{Kind, Name};

/// A short word that names an entry: an even number above 0.
#[derive(Clone, Copy, Debug, PartialEq, Eq)]
pub struct Short(pub u16);

impl Short {
    ghost use Rattle.std.specs.Prelude.{◌≡◌, ◌-◌, ◌/◌, true};
    ghost use Rattle.object_table.specs.Entries.{is_short};

    // Its place in a table.
    #[inline(always)]
    pub(crate) fn index(self) -> usize
        requires { is_short self.0 ≡ true }
        ensures { result ≡ self.0 / 2 - 1 }
    {
        self.0 as usize / 2 - 1
    }
}

/// What an entry stands for: nothing, an object that isn't in the segment, or one whose body lies at this place there.
#[derive(Clone, Copy, Debug, PartialEq, Eq)]
pub enum EntryState {
    Free,
    Leaf,
    Resident(u32),
}

/// What a core knows of an object. Class, kind and length count only where its body is in the segment.
#[derive(Clone, Copy, Debug, PartialEq, Eq)]
pub struct Entry {
    pub name: Name,
    pub state: EntryState,
    /// How many short words name this entry.
    pub refs: u32,
    /// By how much the object's count differs from the count in its record.
    pub change: i64,
    pub class: Short,
    pub kind: Kind,
    pub len: u32,
    pub flags: EntryFlags,
}

impl Entry {
    ghost use Rattle.std.specs.Prelude.{◌≡◌};
    ghost use Rattle.object_table.specs.Entries.{is_free, is_used, place_of, free_entry, leaf_entry};

    /// Stands for nothing.
    #[inline(always)]
    pub fn none() -> Entry
        ensures { result ≡ free_entry }
    {
        Entry {
            name: Name::NIL,
            state: EntryState::Free,
            refs: 0,
            change: 0,
            class: Short(0),
            kind: Kind::Pointers,
            len: 0,
            flags: EntryFlags::none(),
        }
    }

    /// Stands for the object of this name, and nothing refers to it.
    #[inline(always)]
    pub fn leaf(name: Name) -> Entry
        ensures { result ≡ leaf_entry name }
    {
        Entry {
            name,
            state: EntryState::Leaf,
            refs: 0,
            change: 0,
            class: Short(0),
            kind: Kind::Pointers,
            len: 0,
            flags: EntryFlags::none(),
        }
    }

    /// Whether it stands for nothing.
    #[inline(always)]
    pub fn is_free(&self) -> bool
        ensures { result ≡ is_free self.now }
    {
        match self.state {
            EntryState::Free => true,
            EntryState::Leaf => false,
            EntryState::Resident(_) => false,
        }
    }

    /// Whether it stands for an object.
    #[inline(always)]
    pub fn is_used(&self) -> bool
        ensures { result ≡ is_used self.now.state }
    {
        !self.is_free()
    }

    /// The place of its body, if it is in the segment.
    #[inline(always)]
    pub fn place(&self) -> Option<u32>
        ensures { result ≡ place_of self.now.state }
    {
        match self.state {
            EntryState::Free => None,
            EntryState::Leaf => None,
            EntryState::Resident(place) => Some(place),
        }
    }
}
