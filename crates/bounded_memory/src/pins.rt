// The sizes of pinned objects.
ghost use Rattle.std.specs.Prelude.{◌≡◌, ◌+◌, ◌<◌, ◌≤◌, ◌==◌, if◌then◌else◌, None, length};
ghost use Rattle.long_names.specs.declared.limits.TheConstants.{MOST_FIELDS};

use crate::size::Size;
use long_names::ENTRIES_OF_A_CALL;
use object_memory::Need;

/// A pinned object: its name and its size.
#[derive(Clone, Copy)]
pub(crate) struct Pin {
    pub(crate) name: u32,
    pub(crate) size: Size,
}

impl Pin {
    ghost use Rattle.bounded_memory.specs.Pins.{is_pin, is_same_pin, words_unless, entries_unless};

    fn is_named(pin: &Option<Pin>, name: u32) -> bool
        ensures { result ≡ is_pin name pin.now }
    {
        match pin {
            Some(pin) => pin.name == name,
            None => false,
        }
    }

    fn is_same(a: &Option<Pin>, b: &Option<Pin>) -> bool
        ensures { result ≡ is_same_pin a.now b.now }
    {
        match b {
            Some(pin) => Pin::is_named(a, pin.name),
            None => false,
        }
    }

    /// Its words, unless they are counted already.
    fn words_unless(pin: &Option<Pin>, counted: bool) -> u32
        ensures value { result ≡ words_unless pin.now counted }
        ensures bound { result ≤ MOST_FIELDS + 4 }
    {
        match pin {
            Some(pin) if !counted => pin.size.words,
            _ => 0,
        }
    }

    /// Its entries, unless they are counted already.
    fn entries_unless(pin: &Option<Pin>, counted: bool) -> u32
        ensures value { result ≡ entries_unless pin.now counted }
        ensures bound { result ≤ MOST_FIELDS + 2 }
    {
        match pin {
            Some(pin) if !counted => pin.size.entries,
            _ => 0,
        }
    }
}

/// What the three slots pin.
#[derive(Drop)]
pub(crate) struct Pins {
    slots: [Option<Pin>; 3],
    ghost three: { length slots ≡ 3 },
}

impl Pins {
    ghost use Rattle.bounded_memory.specs.Pins.{pin_at, words_with, entries_with};

    /// Nothing.
    pub(crate) fn new() -> Pins
        ensures { pin_at result ≡ (λ i. None) }
    {
        Pins { slots: [None; 3] }
    }

    pub(crate) fn set(&mut self, slot: u8, pin: Option<Pin>)
        requires { slot < 3 }
        ensures { pin_at self.new ≡ (λ i. if i == slot then pin else pin_at self.old i) }
    {
        self.slots[slot as usize] = pin;
    }

    /// What an object of so many words needs of a core, with the pinned objects beside it.
    pub(crate) fn need(&self, object: u32, words: u32) -> Need
        requires { words ≤ MOST_FIELDS + 4 }
        ensures { result ≡ (record { object = object; words = words_with self.now object words; entries = entries_with self.now }) }
    {
        Need {
            object,
            words: self.words(object, words),
            entries: self.entries(),
        }
    }

    /// The words of the object and of the distinct pinned objects.
    fn words(&self, object: u32, words: u32) -> u32
        requires { words ≤ MOST_FIELDS + 4 }
        ensures { result ≡ words_with self.now object words }
    {
        let first = &self.slots[0];
        let second = &self.slots[1];
        let third = &self.slots[2];
        let before_third = Pin::is_same(first, third) || Pin::is_same(second, third);
        words
            + Pin::words_unless(first, Pin::is_named(first, object))
            + Pin::words_unless(
                second,
                Pin::is_named(second, object) || Pin::is_same(first, second),
            )
            + Pin::words_unless(third, Pin::is_named(third, object) || before_third)
    }

    /// The entries of a call, and of the distinct pinned objects.
    fn entries(&self) -> u32
        ensures { result ≡ entries_with self.now }
    {
        let first = &self.slots[0];
        let second = &self.slots[1];
        let third = &self.slots[2];
        ENTRIES_OF_A_CALL
            + Pin::entries_unless(first, false)
            + Pin::entries_unless(second, Pin::is_same(first, second))
            + Pin::entries_unless(
                third,
                Pin::is_same(first, third) || Pin::is_same(second, third),
            )
    }
}
