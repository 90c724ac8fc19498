// A memory over another, which logs the objects that its calls touch.
ghost use Rattle.std.specs.Prelude.{◌≡◌};

use core_segment::HEADER;
use long_names::{Kind, Name, literal_count};
use object_memory::{MemFault, ObjectMemory, Reg};
use std::alloc::{AllocError, Global};

/// The name of an object that a call touched; and where the call made it, the words that it takes in a core, which are 0 else.
#[derive(Clone, Copy, PartialEq, Eq)]
pub struct Touch {
    pub name: u32,
    pub made: u32,
}

/// What calls touched, one after another, without a repeat of the last one; as many as there is room for.
#[derive(Drop)]
pub struct Log {
    touches: Vec<Touch>,
    used: usize,
}

impl Log {
    /// A log with room for so many touches.
    pub fn new(alloc: Global, room: usize) -> Result<Log, AllocError> {
        Ok(Log {
            touches: vec![in alloc; Touch { name: 0, made: 0 }; room]?,
            used: 0,
        })
    }

    /// What was logged.
    pub fn touches(&self) -> &[Touch] {
        match self.touches.get(..self.used) {
            Some(touches) => touches,
            None => &[],
        }
    }

    // Adds a touch, unless it is the last one again or there is no room.
    fn add(&mut self, touch: Touch) {
        if self.touches().last() == Some(&touch) {
            return;
        }
        if let Some(place) = self.touches.get_mut(self.used) {
            *place = touch;
            self.used += 1;
        }
    }
}

/// A memory that logs what is touched.
#[derive(Drop)]
pub struct LoggedMemory<M: ObjectMemory> {
    pub inner: M,
    pub log: Log,
}

impl<M: ObjectMemory> LoggedMemory<M> {
    // Logs the object of a register, which takes so many words where it was just made.
    fn log_touch(&mut self, of: Reg, made: u32)
        requires { M.sound self.old.inner }
        ensures { self.new.inner ≡ self.old.inner }
    {
        if self.inner.as_int(of).is_some() {
            return;
        }
        let name = self.inner.hash(of).saturating_mul(2);
        self.log.add(Touch { name, made });
    }

    // Logs the object of a register.
    fn note(&mut self, of: Reg)
        requires { M.sound self.old.inner }
        ensures { self.new.inner ≡ self.old.inner }
    {
        self.log_touch(of, 0);
    }

    // Logs the object of a register, whose body was just made of so many words.
    fn note_made(&mut self, of: Reg, body: u32)
        requires { M.sound self.old.inner }
        ensures { self.new.inner ≡ self.old.inner }
    {
        self.log_touch(of, HEADER.saturating_add(body));
    }
}

impl<M: ObjectMemory> ObjectMemory for LoggedMemory<M> {
    ghost told = { λ m. M.told m.inner };

    ghost sound = { λ m. M.sound m.inner };

    ghost lender = { λ m. M.lender m.inner };

    ghost Outside = { M.Outside };

    ghost outside = { λ m. M.outside m.inner };

    fn is(&self, r: Reg, name: Name) -> bool {
        self.inner.is(r, name)
    }

    fn same(&self, a: Reg, b: Reg) -> bool {
        self.inner.same(a, b)
    }

    fn as_int(&self, r: Reg) -> Option<i16> {
        self.inner.as_int(r)
    }

    fn hash(&self, r: Reg) -> u32 {
        self.inner.hash(r)
    }

    fn next_name(&self) -> u32 {
        self.inner.next_name()
    }

    fn is_pinned(&self, r: Reg) -> bool {
        self.inner.is_pinned(r)
    }

    fn int(&mut self, to: Reg, v: i16) {
        self.inner.int(to, v);
    }

    fn copy(&mut self, to: Reg, from: Reg) {
        self.inner.copy(to, from);
    }

    fn known(&mut self, to: Reg, name: Name) -> Result<(), MemFault> {
        self.inner.known(to, name)
    }

    fn class(&mut self, to: Reg, of: Reg) -> Result<(), MemFault> {
        self.note(of);
        self.inner.class(to, of)
    }

    fn kind(&mut self, of: Reg) -> Result<Kind, MemFault> {
        self.note(of);
        self.inner.kind(of)
    }

    fn len(&mut self, of: Reg) -> Result<u32, MemFault> {
        self.note(of);
        self.inner.len(of)
    }

    fn field_count(&self, of: Reg) -> Option<u32> {
        // the object is logged by the calls that answer where this one doesn't
        None
    }

    fn header(&mut self, of: Reg) -> Result<i16, MemFault> {
        self.note(of);
        self.inner.header(of)
    }

    fn field(&mut self, to: Reg, of: Reg, i: u32) -> Result<(), MemFault> {
        self.note(of);
        self.inner.field(to, of, i)
    }

    fn set_field(&mut self, of: Reg, i: u32, from: Reg) -> Result<(), MemFault> {
        self.note(of);
        self.inner.set_field(of, i, from)
    }

    fn word(&mut self, of: Reg, i: u32) -> Result<u16, MemFault> {
        self.note(of);
        self.inner.word(of, i)
    }

    fn set_word(&mut self, of: Reg, i: u32, w: u16) -> Result<(), MemFault> {
        self.note(of);
        self.inner.set_word(of, i, w)
    }

    fn byte(&mut self, of: Reg, i: u32) -> Result<u8, MemFault> {
        self.note(of);
        self.inner.byte(of, i)
    }

    fn code_byte(&self, of: Reg, place: u32) -> Option<u8> {
        // the method is logged by the calls that answer where this one doesn't
        None
    }

    fn set_byte(&mut self, of: Reg, i: u32, b: u8) -> Result<(), MemFault> {
        self.note(of);
        self.inner.set_byte(of, i, b)
    }

    fn read_words(&mut self, of: Reg, at: u32, out: &mut [u16]) -> Result<(), MemFault> {
        self.note(of);
        self.inner.read_words(of, at, out)
    }

    fn write_words(&mut self, of: Reg, at: u32, from: &[u16]) -> Result<(), MemFault> {
        self.note(of);
        self.inner.write_words(of, at, from)
    }

    fn read_bytes(&mut self, of: Reg, at: u32, out: &mut [u8]) -> Result<(), MemFault> {
        self.note(of);
        self.inner.read_bytes(of, at, out)
    }

    fn new_pointers(&mut self, to: Reg, class: Reg, n: u32) -> Result<(), MemFault> {
        self.inner.new_pointers(to, class, n)?;
        self.note_made(to, n);
        Ok(())
    }

    fn new_words(&mut self, to: Reg, class: Reg, n: u32) -> Result<(), MemFault> {
        self.inner.new_words(to, class, n)?;
        self.note_made(to, n);
        Ok(())
    }

    fn new_bytes(&mut self, to: Reg, class: Reg, n: u32) -> Result<(), MemFault> {
        self.inner.new_bytes(to, class, n)?;
        self.note_made(to, n.div_ceil(2));
        Ok(())
    }

    fn new_method(&mut self, to: Reg, class: Reg, header: i16, code: u32) -> Result<(), MemFault> {
        self.inner.new_method(to, class, header, code)?;
        let literals = literal_count(header) as u32;
        self.note_made(to, 1 + literals + code.div_ceil(2));
        Ok(())
    }

    fn swap(&mut self, a: Reg, b: Reg) -> Result<(), MemFault> {
        self.note(a);
        self.note(b);
        self.inner.swap(a, b)
    }

    fn pin(&mut self, slot: u8, r: Reg) -> Result<(), MemFault> {
        self.note(r);
        self.inner.pin(slot, r)
    }

    fn unpin(&mut self, slot: u8) {
        self.inner.unpin(slot);
    }

    fn begin_path(&mut self) {
        self.inner.begin_path();
    }

    fn mark(&mut self, r: Reg) -> Result<(), MemFault> {
        self.note(r);
        self.inner.mark(r)
    }

    fn cache_find(&mut self, to: Reg, class: Reg, selector: Reg) -> bool {
        self.inner.cache_find(to, class, selector)
    }

    fn cache_put(&mut self, class: Reg, selector: Reg, method: Reg) -> bool {
        self.inner.cache_put(class, selector, method)
    }

    fn say(&mut self, of: Reg) -> Result<(), MemFault> {
        self.note(of);
        self.inner.say(of)
    }

    fn settle(&mut self) -> Result<(), MemFault> {
        self.inner.settle()
    }

    fn purge_all(&mut self) -> Result<(), MemFault> {
        self.inner.purge_all()
    }

    fn compact(&mut self) {
        self.inner.compact();
    }
}
