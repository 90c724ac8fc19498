// The flags of an entry: four facts, which are a set of bits to `bitflags`.
use bitflags::{Flag, Flags};

/// What is known of an entry's object beside its body.
#[derive(Clone, Copy, Debug, PartialEq, Eq)]
pub struct EntryFlags {
    /// It differs from its record.
    pub changed: bool,
    /// It was used since it was last looked at.
    pub touched: bool,
    /// It is on a cached lookup path.
    pub marked: bool,
    /// It has no record yet.
    pub fresh: bool,
    // The four bits that no flag names.
    others: u8,
}

impl EntryFlags {
    pub const CHANGED: EntryFlags = EntryFlags {
        changed: true,
        touched: false,
        marked: false,
        fresh: false,
        others: 0,
    };

    pub const TOUCHED: EntryFlags = EntryFlags {
        changed: false,
        touched: true,
        marked: false,
        fresh: false,
        others: 0,
    };

    pub const MARKED: EntryFlags = EntryFlags {
        changed: false,
        touched: false,
        marked: true,
        fresh: false,
        others: 0,
    };

    pub const FRESH: EntryFlags = EntryFlags {
        changed: false,
        touched: false,
        marked: false,
        fresh: true,
        others: 0,
    };

    const FLAGS: &'static [Flag<EntryFlags>] = &[
        Flag {
            name: "CHANGED",
            value: EntryFlags::CHANGED,
        },
        Flag {
            name: "TOUCHED",
            value: EntryFlags::TOUCHED,
        },
        Flag {
            name: "MARKED",
            value: EntryFlags::MARKED,
        },
        Flag {
            name: "FRESH",
            value: EntryFlags::FRESH,
        },
    ];
}

impl Flags for EntryFlags {
    ghost use Rattle.std.specs.Prelude.{⊤, [], ◌∷◌, codes};
    ghost use Rattle.object_table.specs.Flags.{bits_of};

    type Bits = u8;

    ghost exact = { ⊤ };

    ghost table = { (codes "CHANGED", 1) ∷ (codes "TOUCHED", 2) ∷ (codes "MARKED", 4) ∷ (codes "FRESH", 8) ∷ [] };

    ghost set_of = { bits_of };

    fn flags<'a>() -> &'a [Flag<EntryFlags>] {
        EntryFlags::FLAGS
    }

    fn bits(&self) -> u8 {
        u8::from(self.changed)
            + 2 * u8::from(self.touched)
            + 4 * u8::from(self.marked)
            + 8 * u8::from(self.fresh)
            + 16 * (self.others % 16)
    }

    fn from_bits_retain(bits: u8) -> EntryFlags {
        EntryFlags {
            changed: bits % 2 == 1,
            touched: bits / 2 % 2 == 1,
            marked: bits / 4 % 2 == 1,
            fresh: bits / 8 % 2 == 1,
            others: bits / 16,
        }
    }
}

impl EntryFlags {
    ghost use Rattle.std.specs.Prelude.{◌≡◌};
    ghost use Rattle.object_table.specs.Flags.{no_flags};

    /// None of them.
    #[inline(always)]
    pub fn none() -> EntryFlags
        ensures { result ≡ no_flags }
    {
        EntryFlags {
            changed: false,
            touched: false,
            marked: false,
            fresh: false,
            others: 0,
        }
    }
}
