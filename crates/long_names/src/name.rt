// Long names.
ghost use Rattle.std.specs.Prelude.{◌≡◌, ◌↔◌, ◌/◌, ◌≤◌, IsSome, IfSome};
ghost use Rattle.long_names.specs.Names.{IsName, is_known, known_names, bits_of};

use std::marker::Model;

/// A long name: the even number above 0 that an object has on disk, of 32 bits. Names are never used again.
#[derive(Clone, Copy, Debug, PartialEq, Eq, PartialOrd, Ord)]
pub struct Name {
    word: u32,
}

impl Model for Name {
    ghost use Rattle.std.specs.Prelude.{ℕ};
    ghost use Rattle.long_names.specs.Names.{IsName};

    ghost Value = { ℕ };

    ghost view = { λ a. a.word };

    ghost invariant = { λ a. IsName a.word };

    ghost inverse = { λ n. record { word = n } };
}

// The objects that every image has (chapter 27 of the Blue Book, guaranteed pointers). They are never freed.
impl Name {
    pub const NIL: Name = Name { word: 2 };

    pub const FALSE: Name = Name { word: 4 };

    pub const TRUE: Name = Name { word: 6 };

    pub const SCHEDULER_ASSOCIATION: Name = Name { word: 8 };

    pub const SMALL_INTEGER: Name = Name { word: 12 };

    pub const STRING: Name = Name { word: 14 };

    pub const ARRAY: Name = Name { word: 16 };

    pub const METHOD_CONTEXT: Name = Name { word: 22 };

    pub const BLOCK_CONTEXT: Name = Name { word: 24 };

    pub const POINT: Name = Name { word: 26 };

    pub const LARGE_POSITIVE_INTEGER: Name = Name { word: 28 };

    pub const DISPLAY_BITMAP: Name = Name { word: 30 };

    pub const MESSAGE: Name = Name { word: 32 };

    pub const COMPILED_METHOD: Name = Name { word: 34 };

    pub const SEMAPHORE: Name = Name { word: 38 };

    pub const CHARACTER: Name = Name { word: 40 };

    pub const DOES_NOT_UNDERSTAND: Name = Name { word: 42 };

    pub const CANNOT_RETURN: Name = Name { word: 44 };

    pub const SPECIAL_SELECTORS: Name = Name { word: 48 };

    pub const CHARACTER_TABLE: Name = Name { word: 50 };

    pub const MUST_BE_BOOLEAN: Name = Name { word: 52 };

    pub const LARGE_NEGATIVE_INTEGER: Name = Name { word: 58 };

    /// All of them, by rising name.
    pub const KNOWN: [Name; 22] = [
        Name::NIL,
        Name::FALSE,
        Name::TRUE,
        Name::SCHEDULER_ASSOCIATION,
        Name::SMALL_INTEGER,
        Name::STRING,
        Name::ARRAY,
        Name::METHOD_CONTEXT,
        Name::BLOCK_CONTEXT,
        Name::POINT,
        Name::LARGE_POSITIVE_INTEGER,
        Name::DISPLAY_BITMAP,
        Name::MESSAGE,
        Name::COMPILED_METHOD,
        Name::SEMAPHORE,
        Name::CHARACTER,
        Name::DOES_NOT_UNDERSTAND,
        Name::CANNOT_RETURN,
        Name::SPECIAL_SELECTORS,
        Name::CHARACTER_TABLE,
        Name::MUST_BE_BOOLEAN,
        Name::LARGE_NEGATIVE_INTEGER,
    ];
}

impl Name {
    /// None exactly for 0 and odd words.
    #[inline(always)]
    pub fn new(word: u32) -> Option<Name>
        ensures name { IsSome result ↔ IsName word }
        ensures value { IfSome result (λ name. name ≡ word) }
    {
        if word == 0 || word % 2 != 0 {
            return None;
        }
        Some(Name { word })
    }

    /// The long word of the name.
    #[inline(always)]
    pub fn get(self) -> u32
        ensures value { result ≡ self }
        ensures name { IsName self }
    {
        self.word
    }

    /// Its number among all names: half the long word.
    #[inline(always)]
    pub fn index(self) -> u32
        ensures { result ≡ self / 2 }
    {
        self.word / 2
    }

    /// The names of the objects that every image has, by rising name.
    pub fn known() -> [Name; 22]
        ensures { result ≡ known_names }
    {
        Name::KNOWN
    }

    /// Whether it is the name of an object that every image has.
    #[inline(always)]
    pub fn is_known(self) -> bool
        ensures { result ≡ is_known self }
    {
        Name::KNOWN.contains(&self)
    }
}

/// The bits of a word from one to another, both of them. Bit 0 is the highest, as the Blue Book numbers them.
pub fn bits(word: u16, from: u8, to: u8) -> u16
    requires ordered { from ≤ to }
    requires within { to ≤ 15 }
    ensures { result ≡ bits_of word from to }
{
    let low = (word as u32) >> (15 - to);
    (low % (1u32 << (to - from + 1))) as u16
}
