// The memory of two levels is an object memory: each call is the one of its name, whose promises of the core and of Work stand there.
use crate::memory::LoomMemory;
use long_names::{Kind, Name};
use loom_host::Host;
use object_memory::{MemFault, ObjectMemory, Reg};

impl<'h, H: Host> ObjectMemory for LoomMemory<'h, H> {
    ghost use Rattle.loom_host.specs.declared.outside.Role.{Role as HostRole};
    ghost use Rattle.loom_memory.specs.Memory.{loom_told, loom_outside, loom_lender, IsSound, Others};

    ghost told = { loom_told H.Host };

    ghost sound = { IsSound H.Host };

    ghost lender = { loom_lender };

    ghost Outside = { HostRole → Others };

    ghost outside = { loom_outside H.Host };

    #[inline(always)]
    fn int(&mut self, to: Reg, v: i16) {
        LoomMemory::int(self, to, v);
    }

    #[inline(always)]
    fn copy(&mut self, to: Reg, from: Reg) {
        LoomMemory::copy(self, to, from);
    }

    #[inline(always)]
    fn clear_scratch(&mut self) {
        LoomMemory::clear_scratch(self);
    }

    #[inline(always)]
    fn known(&mut self, to: Reg, name: Name) -> Result<(), MemFault> {
        LoomMemory::known(self, to, name)
    }

    #[inline(always)]
    fn is(&self, r: Reg, name: Name) -> bool {
        LoomMemory::is(self, r, name)
    }

    #[inline(always)]
    fn same(&self, a: Reg, b: Reg) -> bool {
        LoomMemory::same(self, a, b)
    }

    #[inline(always)]
    fn as_int(&self, r: Reg) -> Option<i16> {
        LoomMemory::as_int(self, r)
    }

    #[inline(always)]
    fn hash(&self, r: Reg) -> u32 {
        LoomMemory::hash(self, r)
    }

    #[inline(always)]
    fn next_name(&self) -> u32 {
        LoomMemory::next_name(self)
    }

    #[inline(always)]
    fn is_pinned(&self, r: Reg) -> bool {
        LoomMemory::is_pinned(self, r)
    }

    #[inline(always)]
    fn class(&mut self, to: Reg, of: Reg) -> Result<(), MemFault> {
        LoomMemory::class(self, to, of)
    }

    #[inline(always)]
    fn kind(&mut self, of: Reg) -> Result<Kind, MemFault> {
        LoomMemory::kind(self, of)
    }

    #[inline(always)]
    fn len(&mut self, of: Reg) -> Result<u32, MemFault> {
        LoomMemory::len(self, of)
    }

    #[inline(always)]
    fn field_count(&self, of: Reg) -> Option<u32> {
        LoomMemory::field_count(self, of)
    }

    #[inline(always)]
    fn header(&mut self, of: Reg) -> Result<i16, MemFault> {
        LoomMemory::header(self, of)
    }

    #[inline(always)]
    fn field(&mut self, to: Reg, of: Reg, i: u32) -> Result<(), MemFault> {
        LoomMemory::field(self, to, of, i)
    }

    #[inline(always)]
    fn number_at(&self, of: Reg, i: u32) -> Option<i16> {
        LoomMemory::number_at(self, of, i)
    }

    #[inline(always)]
    fn set_field(&mut self, of: Reg, i: u32, from: Reg) -> Result<(), MemFault> {
        LoomMemory::set_field(self, of, i, from)
    }

    #[inline(always)]
    fn word(&mut self, of: Reg, i: u32) -> Result<u16, MemFault> {
        LoomMemory::word(self, of, i)
    }

    #[inline(always)]
    fn set_word(&mut self, of: Reg, i: u32, w: u16) -> Result<(), MemFault> {
        LoomMemory::set_word(self, of, i, w)
    }

    #[inline(always)]
    fn byte(&mut self, of: Reg, i: u32) -> Result<u8, MemFault> {
        LoomMemory::byte(self, of, i)
    }

    #[inline(always)]
    fn code_byte(&self, of: Reg, place: u32) -> Option<u8> {
        LoomMemory::code_byte(self, of, place)
    }

    #[inline(always)]
    fn set_byte(&mut self, of: Reg, i: u32, b: u8) -> Result<(), MemFault> {
        LoomMemory::set_byte(self, of, i, b)
    }

    #[inline(always)]
    fn read_words(&mut self, of: Reg, at: u32, out: &mut [u16]) -> Result<(), MemFault> {
        LoomMemory::read_words(self, of, at, out)
    }

    #[inline(always)]
    fn write_words(&mut self, of: Reg, at: u32, from: &[u16]) -> Result<(), MemFault> {
        LoomMemory::write_words(self, of, at, from)
    }

    #[inline(always)]
    fn read_bytes(&mut self, of: Reg, at: u32, out: &mut [u8]) -> Result<(), MemFault> {
        LoomMemory::read_bytes(self, of, at, out)
    }

    #[inline(always)]
    fn new_pointers(&mut self, to: Reg, class: Reg, n: u32) -> Result<(), MemFault> {
        LoomMemory::new_pointers(self, to, class, n)
    }

    #[inline(always)]
    fn new_words(&mut self, to: Reg, class: Reg, n: u32) -> Result<(), MemFault> {
        LoomMemory::new_words(self, to, class, n)
    }

    #[inline(always)]
    fn new_bytes(&mut self, to: Reg, class: Reg, n: u32) -> Result<(), MemFault> {
        LoomMemory::new_bytes(self, to, class, n)
    }

    #[inline(always)]
    fn new_method(&mut self, to: Reg, class: Reg, header: i16, code: u32) -> Result<(), MemFault> {
        LoomMemory::new_method(self, to, class, header, code)
    }

    #[inline(always)]
    fn swap(&mut self, a: Reg, b: Reg) -> Result<(), MemFault> {
        LoomMemory::swap(self, a, b)
    }

    #[inline(always)]
    fn pin(&mut self, slot: u8, r: Reg) -> Result<(), MemFault> {
        LoomMemory::pin(self, slot, r)
    }

    #[inline(always)]
    fn unpin(&mut self, slot: u8) {
        LoomMemory::unpin(self, slot);
    }

    #[inline(always)]
    fn begin_path(&mut self) {
        LoomMemory::begin_path(self);
    }

    #[inline(always)]
    fn mark(&mut self, r: Reg) -> Result<(), MemFault> {
        LoomMemory::mark(self, r)
    }

    #[inline(always)]
    fn cache_find(&mut self, to: Reg, class: Reg, selector: Reg) -> bool {
        LoomMemory::cache_find(self, to, class, selector)
    }

    #[inline(always)]
    fn cache_put(&mut self, class: Reg, selector: Reg, method: Reg) -> bool {
        LoomMemory::cache_put(self, class, selector, method)
    }

    #[inline(always)]
    fn say(&mut self, of: Reg) -> Result<(), MemFault> {
        LoomMemory::say(self, of)
    }

    #[inline(always)]
    fn settle(&mut self) -> Result<(), MemFault> {
        LoomMemory::settle(self)
    }

    #[inline(always)]
    fn purge_all(&mut self) -> Result<(), MemFault> {
        LoomMemory::purge_all(self)
    }

    #[inline(always)]
    fn compact(&mut self) {
        LoomMemory::compact(self);
    }
}
