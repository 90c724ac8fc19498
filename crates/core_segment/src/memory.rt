// Raw memory for words: asked for, filled one behind the other, read and written through one pointer, and given back.
ghost use Rattle.std.specs.Prelude.{◌≡◌, ℕ, ◌+◌, ◌<◌, List, [], ◌∷◌, ◌++◌, length, slice_index_or, slice_set, Some, IfSome};
ghost use denote.RawPtr.{Ptr};
ghost use Rattle.core_segment.specs.Memory.{words_and_room, words_lent, words_type, IsSize};

use std::alloc::Allocator;
use std::marker::{Model, PhantomData};

// Where the words begin. It owns nothing.
#[derive(Clone, Copy)]
pub(crate) struct Base {
    ptr: *mut u16,
}

// The owner of the words that were written, and of room for more behind them, in which nothing lies yet. It takes no space.
pub(crate) struct Cells {
    ghost at: { Ptr },
    ghost items: { List ℕ },
    ghost spare: { ℕ },
}

impl Model for Cells {
    ghost also_owns = { λ c. words_and_room c.at c.items c.spare };

    ghost also_shares = { λ c _ κ. words_lent c.at c.items κ };
}

// The right to give so many words back to the allocator.
pub(crate) struct Lease<A: Allocator> {
    mark: PhantomData<A>,
    ghost alloc: { A },
    ghost at: { Ptr },
    ghost size: { ℕ },
}

impl<A: Allocator> Model for Lease<A> {
    ghost also_owns = { λ l. A.dealloc_token l.alloc (words_type l.size) l.at };
}

// Room for so many words, of which none is written.
pub(crate) fn ask<A: Allocator>(alloc: &A, size: usize) -> Option<(Base, Cells, Lease<A>)>
    requires { IsSize size }
    ensures { IfSome result (λ r. (r.1.at ≡ r.0.ptr) × (r.1.items ≡ []) × (r.1.spare ≡ size) × (r.2.at ≡ r.0.ptr) × (r.2.size ≡ size) × (r.2.alloc ≡ alloc.now)) }
{
    match alloc.allocate(size * 2, 2) {
        Ok(block) => {
            let base = Base {
                ptr: block as *mut u16,
            };
            Some((base, Cells {}, Lease { mark: PhantomData }))
        }
        Err(_) => None,
    }
}

pub(crate) fn free<A: Allocator>(alloc: &A, base: Base, size: usize, cells: Cells, lease: Lease<A>)
    requires { (cells.at ≡ base.ptr) × (length cells.items + cells.spare ≡ size) × IsSize size × (lease.at ≡ base.ptr) × (lease.size ≡ size) × (lease.alloc ≡ alloc.now) }
{
    let Cells {} = cells;
    let Lease { mark: _ } = lease;
    unsafe {
        alloc.deallocate(base.ptr as *mut u8, size * 2, 2);
    }
}

impl Cells {
    #[inline(always)]
    pub(crate) fn get(&self, base: Base, i: usize) -> &u16
        requires { (base.ptr ≡ self.now.at) × (i < length self.now.items) × IsSize (length self.now.items) }
        ensures { result.now ≡ slice_index_or self.now.items i 0 }
    {
        unsafe { &*base.ptr.add(i) }
    }

    #[inline(always)]
    pub(crate) fn put(&mut self, base: Base, i: usize, w: u16)
        requires { (base.ptr ≡ self.old.at) × (i < length self.old.items) × IsSize (length self.old.items) }
        ensures { (self.new.at ≡ self.old.at) × (self.new.items ≡ slice_set self.old.items i w) × (self.new.spare ≡ self.old.spare) }
    {
        unsafe { *base.ptr.add(i) = w };
    }

    // Writes 0 into the first word of the room.
    pub(crate) fn add(&mut self, base: Base, i: usize)
        requires { (base.ptr ≡ self.old.at) × (i ≡ length self.old.items) × (0 < self.old.spare) × IsSize (length self.old.items + self.old.spare) }
        ensures { (self.new.at ≡ self.old.at) × (self.new.items ≡ self.old.items ++ 0 ∷ []) × (self.new.spare + 1 ≡ self.old.spare) }
    {
        unsafe { base.ptr.add(i).write(0) };
    }
}
