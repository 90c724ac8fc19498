// Heads of both versions, read field by field and written.
ghost use Rattle.std.specs.Prelude.{◌≡◌, length};
ghost use Rattle.std.specs.Int.{w32};
ghost use Rattle.image_format.specs.Faults.{told};
ghost use Rattle.image_format.specs.Faults as faults;
ghost use Rattle.image_format.specs.Heads as heads;
ghost use Rattle.image_format.specs.Heads.{checked_at, opening_at, state_at, version_state_at, head_at, opening_text, state_text};
ghost use Rattle.image_format.specs.Inside.{Reads};

use crate::big_endian::bytes_of_u32;
use crate::fault::{Break, Halt};
use crate::head::{FEWEST_OBJECTS, HEAD_LEN, LOWEST_NEXT, MOST_OBJECTS, VERSION};
use crate::reading::Unread;

/// The version whose head states the machine's state too.
pub const STATE_VERSION: u32 = 2;

/// How many bytes a state has in the head of that version, behind the 16 that both versions have.
pub const STATE_LEN: usize = 20;

/// The bytes `LOOM` as one number.
pub const LOOM: u32 = 0x4C4F_4F4D;

/// What an image states first: its version, how many objects it has, and the name that the next new object takes.
#[derive(Clone, Copy, Debug, PartialEq, Eq)]
pub struct Opening {
    pub version: u32,
    pub objects: u32,
    pub next: u32,
}

/// The machine's state beside its objects: the clock, the names of the display form, of the input semaphore and of the timer's semaphore, each 0 where there is none, and the tick at which the timer signals.
#[derive(Clone, Copy, Debug, PartialEq, Eq)]
pub struct State {
    pub clock: u32,
    pub display: u32,
    pub input: u32,
    pub timer: u32,
    pub tick: u32,
}

/// The whole head of an image of either version. Version 1 states no state: it is all zeros.
#[derive(Clone, Copy, Debug, PartialEq, Eq)]
pub struct ImageHead {
    pub opening: Opening,
    pub state: State,
}

impl State {
    /// The state of a machine without display, semaphores and timer that has run nothing.
    pub const NONE: State = State {
        clock: 0,
        display: 0,
        input: 0,
        timer: 0,
        tick: 0,
    };

    /// Its bytes.
    pub fn bytes(&self) -> [u8; STATE_LEN]
        ensures { result ≡ state_text self.now }
    {
        let [c0, c1, c2, c3] = bytes_of_u32(self.clock);
        let [d0, d1, d2, d3] = bytes_of_u32(self.display);
        let [i0, i1, i2, i3] = bytes_of_u32(self.input);
        let [r0, r1, r2, r3] = bytes_of_u32(self.timer);
        let [t0, t1, t2, t3] = bytes_of_u32(self.tick);
        [
            c0, c1, c2, c3, d0, d1, d2, d3, i0, i1, i2, i3, r0, r1, r2, r3, t0, t1, t2, t3,
        ]
    }
}

impl Opening {
    /// Its bytes.
    pub fn bytes(&self) -> [u8; HEAD_LEN]
        ensures { result ≡ opening_text self.now }
    {
        let [v0, v1, v2, v3] = bytes_of_u32(self.version);
        let [o0, o1, o2, o3] = bytes_of_u32(self.objects);
        let [n0, n1, n2, n3] = bytes_of_u32(self.next);
        [
            b'L', b'O', b'O', b'M', v0, v1, v2, v3, o0, o1, o2, o3, n0, n1, n2, n3,
        ]
    }
}

fn is_loom(word: u32) -> bool
    ensures { result ≡ heads.is_loom word }
{
    word == LOOM
}

fn is_version(number: u32) -> bool
    ensures { result ≡ heads.is_version number }
{
    number == VERSION || number == STATE_VERSION
}

fn is_count(number: u32) -> bool
    ensures { result ≡ heads.is_count number }
{
    number >= FEWEST_OBJECTS && number <= MOST_OBJECTS
}

/// Whether an image may state this next name.
pub fn is_next(number: u32) -> bool
    ensures { result ≡ heads.is_next number }
{
    number >= LOWEST_NEXT && number % 2 == 0
}

/// Whether the word of a state is none or a name below the next one.
pub fn is_state_word(next: u32, word: u32) -> bool
    ensures { result ≡ heads.is_state_word next word }
{
    word == 0 || (word % 2 == 0 && word < next)
}

/// Whether a state with this timer may have this tick.
pub fn is_tick(timer: u32, tick: u32) -> bool
    ensures { result ≡ heads.is_tick timer tick }
{
    tick == 0 || timer > 0
}

// Each call takes what stands first, or says which rule it breaks.
impl<'a> Unread<'a> {
    #[tactic(auto, unfolding(crate::specs::Heads::checked_at))]
    fn take_loom(&mut self) -> Result<u32, Halt>
        ensures { Reads result self.new.rest.now (checked_at 1 heads.is_loom self.old.rest.now) }
    {
        let halt = self.halt(1);
        let word = self.take_u32()?;
        if is_loom(word) { Ok(word) } else { Err(halt) }
    }

    #[tactic(auto, unfolding(crate::specs::Heads::checked_at))]
    fn take_version(&mut self) -> Result<u32, Halt>
        ensures { Reads result self.new.rest.now (checked_at 2 heads.is_version self.old.rest.now) }
    {
        let halt = self.halt(2);
        let version = self.take_u32()?;
        if is_version(version) {
            Ok(version)
        } else {
            Err(halt)
        }
    }

    #[tactic(auto, unfolding(crate::specs::Heads::checked_at))]
    fn take_count(&mut self) -> Result<u32, Halt>
        ensures { Reads result self.new.rest.now (checked_at 3 heads.is_count self.old.rest.now) }
    {
        let halt = self.halt(3);
        let count = self.take_u32()?;
        if is_count(count) {
            Ok(count)
        } else {
            Err(halt)
        }
    }

    #[tactic(auto, unfolding(crate::specs::Heads::checked_at))]
    fn take_next(&mut self) -> Result<u32, Halt>
        ensures { Reads result self.new.rest.now (checked_at 3 heads.is_next self.old.rest.now) }
    {
        let halt = self.halt(3);
        let next = self.take_u32()?;
        if is_next(next) { Ok(next) } else { Err(halt) }
    }

    #[tactic(auto, unfolding(crate::specs::Heads::opening_at))]
    fn take_opening(&mut self) -> Result<Opening, Halt>
        ensures { Reads result self.new.rest.now (opening_at self.old.rest.now) }
    {
        self.take_loom()?;
        let version = self.take_version()?;
        let objects = self.take_count()?;
        let next = self.take_next()?;
        Ok(Opening {
            version,
            objects,
            next,
        })
    }

    #[tactic(auto, unfolding(crate::specs::Heads::checked_at))]
    fn take_state_word(&mut self, next: u32) -> Result<u32, Halt>
        ensures { Reads result self.new.rest.now (checked_at 13 (heads.is_state_word next) self.old.rest.now) }
    {
        let halt = self.halt(13);
        let word = self.take_u32()?;
        if is_state_word(next, word) {
            Ok(word)
        } else {
            Err(halt)
        }
    }

    #[tactic(auto, unfolding(crate::specs::Heads::checked_at))]
    fn take_tick(&mut self, timer: u32) -> Result<u32, Halt>
        ensures { Reads result self.new.rest.now (checked_at 13 (heads.is_tick timer) self.old.rest.now) }
    {
        let halt = self.halt(13);
        let tick = self.take_u32()?;
        if is_tick(timer, tick) {
            Ok(tick)
        } else {
            Err(halt)
        }
    }

    #[tactic(auto, unfolding(crate::specs::Heads::state_at))]
    fn take_state(&mut self, next: u32) -> Result<State, Halt>
        ensures { Reads result self.new.rest.now (state_at next self.old.rest.now) }
    {
        let clock = self.take_u32()?;
        let display = self.take_state_word(next)?;
        let input = self.take_state_word(next)?;
        let timer = self.take_state_word(next)?;
        let tick = self.take_tick(timer)?;
        Ok(State {
            clock,
            display,
            input,
            timer,
            tick,
        })
    }

    fn take_version_state(&mut self, opening: &Opening) -> Result<State, Halt>
        ensures { Reads result self.new.rest.now (version_state_at opening.now self.old.rest.now) }
    {
        if opening.version == STATE_VERSION {
            self.take_state(opening.next)
        } else {
            Ok(State::NONE)
        }
    }

    #[tactic(auto, unfolding(crate::specs::Heads::head_at))]
    fn take_head(&mut self) -> Result<ImageHead, Halt>
        ensures { Reads result self.new.rest.now (head_at self.old.rest.now) }
    {
        let opening = self.take_opening()?;
        let state = self.take_version_state(&opening)?;
        Ok(ImageHead { opening, state })
    }
}

/// The break of a reading of so many bytes.
pub(crate) fn break_of(len: usize, halt: Halt) -> Break
    ensures { result ≡ faults.break_of len halt }
{
    Break {
        rule: halt.rule,
        place: len.saturating_sub(halt.left) as u64,
    }
}

/// Reads what an image states first, in 16 bytes, or says which of the rules 1 to 3 and 9 they break first, and where. Whatever follows is left.
pub fn read_opening(bytes: &[u8]) -> Result<Opening, Break>
    ensures { result ≡ told (length bytes.now) (opening_at bytes.now) }
{
    let mut unread = Unread { rest: bytes };
    match unread.take_opening() {
        Ok(opening) => Ok(opening),
        Err(halt) => Err(break_of(bytes.len(), halt)),
    }
}

/// Reads the whole head of an image, of 16 or 36 bytes, or says which of the rules 1 to 3, 9 and 13 it breaks first, and where. Whatever follows is left.
pub fn read_head(bytes: &[u8]) -> Result<ImageHead, Break>
    ensures { result ≡ told (length bytes.now) (head_at bytes.now) }
{
    let mut unread = Unread { rest: bytes };
    match unread.take_head() {
        Ok(head) => Ok(head),
        Err(halt) => Err(break_of(bytes.len(), halt)),
    }
}
