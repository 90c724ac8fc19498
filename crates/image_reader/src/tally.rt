// The names of an image's objects, by rising name, and beside each how many words hold it.
ghost use Rattle.std.specs.Prelude.{◌≡◌, length};
ghost use Rattle.image_format.specs.Rules as rules;
ghost use Rattle.image_reader.specs.Names.{IsRising};

use image_format::State;
use long_names::{Name, NameList};
use object_record::RecordBuf;
use std::alloc::{AllocError, Global};

/// How often a word's place is guessed before it is found by halving.
const GUESSES: u32 = 4;

/// The names of an image's objects, and beside each the number of words that were counted.
#[derive(Drop)]
pub struct Tally {
    names: NameList,
    counts: Vec<u64>,
    ghost rising: { IsRising names },
    ghost beside: { length counts.items ≡ length names },
}

impl Tally {
    ghost use Rattle.std.specs.Prelude.{◌≡◌, ◌+◌, ◌<◌, ◌≤◌, ◌==◌, ◌↔◌, ℕ, IfOk, IfSome, IfNone, IsTrue, None, Some, is_some, true, count_by, length, map, slice_get, if◌then◌else◌};
    ghost use Rattle.std.specs.List.{list_any};
    ghost use Rattle.long_names.specs.Names.{known_names};
    ghost use Rattle.long_names.specs.declared.limits.TheConstants.{MOST_FIELDS};
    ghost use Rattle.long_names.specs.Objects.{is_ref};
    ghost use Rattle.object_record.specs.Buffer.{HasRecord, raw_of};
    ghost use Rattle.object_record.specs.Objects.{object_in, value_in};
    ghost use Rattle.object_record.specs.Raw.{longs_of};
    ghost use Rattle.image_reader.specs.Judged as judged;
    ghost use Rattle.image_reader.specs.Tally.{counted, IsFresh, Raises, HasRoom, Counts};

    /// These names, with no word counted.
    pub fn new(alloc: Global, names: NameList) -> Result<Tally, AllocError>
        requires { IsRising names }
        ensures names { IfOk result (λ t. t.names ≡ names) }
        ensures fresh { IfOk result (IsFresh names) }
    {
        let counts = vec![in alloc; 0; names.len()]?;
        Ok(Tally { names, counts })
    }

    /// How many names there are.
    pub fn len(&self) -> usize
        ensures { result ≡ length self.now.names }
    {
        self.names.len()
    }

    /// The name at a place.
    pub fn name(&self, i: usize) -> Name
        requires { i < length self.now.names }
        ensures { slice_get self.now.names i ≡ Some result }
    {
        *self.names.item(i)
    }

    /// Where a word may stand among the names from one place up to another, as if they rose evenly. Names that were given one after the
    /// other do.
    fn guess(&self, low: usize, high: usize, word: u32) -> usize
        requires some { low < high }
        requires within { high ≤ length self.now.names }
        ensures from { low ≤ result }
        ensures to { result < high }
    {
        let last = high - 1;
        let lowest = self.name(low).get();
        let highest = self.name(last).get();
        if word <= lowest {
            return low;
        }
        if highest <= word {
            return last;
        }
        let span = (last - low) as u64;
        let share = u64::from(word - lowest).saturating_mul(span) / u64::from(highest - lowest);
        low + share.min(span) as usize
    }

    /// The place to look at next: some by a guess, and then by halving.
    fn turn(&self, low: usize, high: usize, word: u32, round: u32) -> usize
        requires some { low < high }
        requires within { high ≤ length self.now.names }
        ensures from { low ≤ result }
        ensures to { result < high }
    {
        if round < GUESSES {
            self.guess(low, high, word)
        } else {
            low + (high - low) / 2
        }
    }

    /// The place of a word among the names. None where no object has the name that it is.
    fn place(&self, word: u32) -> Option<usize>
        ensures there { IfSome result (λ i. slice_get self.now.names i ≡ Some word) }
        ensures none { IfNone result (counted self.now word ≡ None) }
    {
        let mut low = 0;
        let mut high = self.names.len();
        let mut round: u32 = 0;
        while low < high {
            let middle = self.turn(low, high, word, round);
            round = round.saturating_add(1);
            let name = self.name(middle).get();
            if name == word {
                return Some(middle);
            }
            if name < word {
                low = middle + 1;
            } else {
                high = middle;
            }
        }
        None
    }

    /// The count of a word. None where no object has the name that it is.
    pub fn count(&self, word: u32) -> Option<u64>
        ensures { result ≡ counted self.now word }
    {
        let i = self.place(word)?;
        Some(self.counts[i])
    }

    /// Counts a word. False where no object has the name that it is.
    fn raise(&mut self, word: u32) -> bool
        requires { HasRoom 1 self.old }
        ensures there { result ≡ is_some (counted self.old word) }
        ensures more { Raises (λ q. if word == q then 1 else 0) self.old self.new }
        ensures names { self.new.names ≡ self.old.names }
    {
        match self.place(word) {
            Some(i) => {
                self.counts[i] += 1;
                true
            }
            None => false,
        }
    }

    /// Counts a long word, if it is a name's. False where that is no object's.
    fn count_long(&mut self, long: u32) -> bool
        requires { HasRoom 1 self.old }
        ensures there { IsTrue result ↔ ((q : ℕ) → is_ref q (value_in long) ≡ true → is_some (counted self.old q) ≡ true) }
        ensures more { Raises (λ q. if is_ref q (value_in long) then 1 else 0) self.old self.new }
        ensures names { self.new.names ≡ self.old.names }
    {
        let is_number = long % 2 == 1;
        if is_number {
            return true;
        }
        self.raise(long)
    }

    /// Counts the names among the fields of the buffer's record, until one is no object's.
    fn count_fields(&mut self, buf: &RecordBuf) -> bool
        requires record { HasRecord buf.now }
        requires room { HasRoom (length (longs_of (raw_of buf.now).body)) self.old }
        ensures there { IsTrue result
            ↔ ((q : ℕ) → list_any (is_ref q) (map value_in (longs_of (raw_of buf.now).body)) ≡ true → is_some (counted self.old q) ≡ true) }
        ensures more { IsTrue result → Raises (λ q. count_by (is_ref q) (map value_in (longs_of (raw_of buf.now).body))) self.old self.new }
        ensures names { self.new.names ≡ self.old.names }
    {
        for i in 0..buf.field_count() {
            if !self.count_long(buf.long_field(i)) {
                return false;
            }
        }
        true
    }

    /// Counts the words of the buffer's object, its class word and its fields, until one holds a name that is no object's.
    pub fn count_object(&mut self, buf: &RecordBuf) -> bool
        requires record { HasRecord buf.now }
        requires room { HasRoom (MOST_FIELDS + 1) self.old }
        ensures counts { Counts (object_in (raw_of buf.now)) self.old self.new result }
        ensures room { (words : ℕ) → HasRoom (words + (MOST_FIELDS + 1)) self.old → IsTrue result → HasRoom words self.new }
        ensures names { self.new.names ≡ self.old.names }
    {
        if !self.raise(buf.class().get()) {
            return false;
        }
        self.count_fields(buf)
    }

    /// Whether the name at a place is counted just as often as is stated, and is held, or known.
    pub fn is_exact(&self, i: usize, stated: u64) -> bool
        requires { i < length self.now.names }
        ensures { (name : ℕ) → slice_get self.now.names i ≡ Some name → result ≡ judged.is_exact (counted self.now name) name stated }
    {
        stated == self.counts[i] && (stated > 0 || self.name(i).is_known())
    }

    /// Whether a word is an object's name.
    fn has(&self, word: u32) -> bool
        ensures { result ≡ is_some (counted self.now word) }
    {
        self.count(word).is_some()
    }

    /// The first known name that is no object's.
    pub fn first_missing(&self) -> Option<Name>
        ensures { result ≡ judged.missing_among (counted self.now) known_names }
    {
        let known = Name::known();
        for i in 0..known.len() {
            let name = known[i];
            if !self.has(name.get()) {
                return Some(name);
            }
        }
        None
    }

    /// A word of the state that isn't 0 and no object's name.
    fn lost(&self, word: u32) -> Option<u32>
        ensures { result ≡ judged.lost_word (counted self.now) word }
    {
        if word == 0 || self.has(word) {
            None
        } else {
            Some(word)
        }
    }

    /// The lowest name of the state that is no object's.
    pub fn first_lost(&self, state: &State) -> Option<u32>
        ensures { result ≡ judged.lost_in (counted self.now) state.now }
    {
        let display = self.lost(state.display);
        let input = self.lost(state.input);
        let timer = self.lost(state.timer);
        lower(display, lower(input, timer))
    }
}

/// The lower of the words that there are.
fn lower(one: Option<u32>, other: Option<u32>) -> Option<u32>
    ensures { result ≡ rules.lower one other }
{
    match (one, other) {
        (None, word) => word,
        (word, None) => word,
        (Some(a), Some(b)) => Some(a.min(b)),
    }
}
