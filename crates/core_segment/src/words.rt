// The words of a region, in raw memory that is asked for once and given back once. A word is written first when it, or one behind it, is put:
// so what lies behind the highest one that was put costs nothing, and is read as 0.
ghost use Rattle.std.specs.Prelude.{◌≡◌, ◌+◌, ◌≤◌, length};
ghost use Rattle.core_segment.specs.Memory.{IsSize, with_zeros};

use crate::memory::{Base, Cells, Lease, ask, free};
use std::alloc::{AllocError, Global};

pub(crate) struct Words {
    base: Base,
    cells: Cells,
    // How many words were written.
    filled: u32,
    pub(crate) size: u32,
    lease: Lease<Global>,
    alloc: Global,
    ghost written: { filled ≡ length cells.items },
    ghost sized: { size ≡ length (with_zeros cells.items cells.spare) },
    ghost roomy: { size ≡ length cells.items + cells.spare },
    ghost small: { IsSize size },
    ghost there: { cells.at ≡ base.ptr },
    ghost leased: { (lease.at ≡ base.ptr) × (lease.size ≡ size) × (lease.alloc ≡ alloc) },
}

impl Drop for Words {
    fn drop(self) {
        let Words {
            base,
            cells,
            filled: _,
            size,
            lease,
            alloc,
        } = self;
        free(&alloc, base, size as usize, cells, lease);
    }
}

impl Words {
    ghost use Rattle.std.specs.Prelude.{◌≡◌, ◌+◌, ◌<◌, ◌≤◌, length, replicate, slice_set, IfOk};
    ghost use Rattle.core_segment.specs.Heads.{word_at, IsMovedDown};
    ghost use Rattle.core_segment.specs.Words.{filled_of, words_of};

    // So many words, each 0.
    pub(crate) fn make(alloc: Global, n: u32) -> Result<Words, AllocError>
        ensures { IfOk result (λ w. words_of w ≡ replicate n 0) }
    {
        match ask(&alloc, n as usize) {
            Some((base, cells, lease)) => Ok(Words {
                base,
                cells,
                filled: 0,
                size: n,
                lease,
                alloc,
            }),
            None => Err(AllocError),
        }
    }

    #[inline(always)]
    pub(crate) fn get(&self, i: u32) -> u16
        requires { i < length (words_of self.now) }
        ensures { result ≡ word_at (words_of self.now) i }
    {
        if i < self.filled {
            return *self.cells.get(self.base, i as usize);
        }
        0
    }

    // One that was written, with no test.
    #[inline(always)]
    pub(crate) fn get_written(&self, i: u32) -> u16
        requires { i < filled_of self.now }
        ensures { result ≡ word_at (words_of self.now) i }
    {
        *self.cells.get(self.base, i as usize)
    }

    // Where they begin. It stays the same, so a loop may ask once.
    #[inline(always)]
    pub(crate) fn base(&self) -> Base
        ensures { result.ptr ≡ self.now.base.ptr }
    {
        self.base
    }

    // One that was written, with no test, by where they begin.
    #[inline(always)]
    pub(crate) fn get_from(&self, base: Base, i: usize) -> u16
        requires base { base.ptr ≡ self.now.base.ptr }
        requires written { i < filled_of self.now }
        ensures { result ≡ word_at (words_of self.now) i }
    {
        *self.cells.get(base, i)
    }

    // Writes the words up to one that weren't written.
    #[cold]
    #[inline(never)]
    fn fill(&mut self, i: u32)
        requires { i < length (words_of self.old) }
        ensures same { words_of self.new ≡ words_of self.old }
        ensures written { i < filled_of self.new }
        ensures grown { filled_of self.old ≤ filled_of self.new }
    {
        while self.filled <= i {
            let base = self.base;
            self.cells.add(base, self.filled as usize);
            self.filled += 1;
        }
    }

    // Writes all words up to one, if it wasn't written.
    #[inline(always)]
    pub(crate) fn reach(&mut self, i: u32)
        requires { i < length (words_of self.old) }
        ensures same { words_of self.new ≡ words_of self.old }
        ensures written { i < filled_of self.new }
        ensures grown { filled_of self.old ≤ filled_of self.new }
    {
        if i < self.filled {
            return;
        }
        self.fill(i);
    }

    #[inline(always)]
    pub(crate) fn put(&mut self, i: u32, w: u16)
        requires { i < length (words_of self.old) }
        ensures words { words_of self.new ≡ slice_set (words_of self.old) i w }
        ensures grown { filled_of self.old ≤ filled_of self.new }
    {
        self.reach(i);
        self.put_written(i, w);
    }

    // Changes one that was written, with no test.
    #[inline(always)]
    pub(crate) fn put_written(&mut self, i: u32, w: u16)
        requires { i < filled_of self.old }
        ensures words { words_of self.new ≡ slice_set (words_of self.old) i w }
        ensures filled { filled_of self.new ≡ filled_of self.old }
    {
        let base = self.base;
        self.cells.put(base, i as usize, w);
    }

    // Changes one that was written, with no test, by where they begin.
    #[inline(always)]
    pub(crate) fn put_from(&mut self, base: Base, i: usize, w: u16)
        requires base { base.ptr ≡ self.old.base.ptr }
        requires written { i < filled_of self.old }
        ensures words { words_of self.new ≡ slice_set (words_of self.old) i w }
        ensures filled { filled_of self.new ≡ filled_of self.old }
        ensures base { self.new.base.ptr ≡ self.old.base.ptr }
    {
        self.cells.put(base, i, w);
    }

    // Moves so many words down that were written, the first one first, since the places may overlap.
    pub(crate) fn shift(&mut self, from: u32, to: u32, n: u32)
        requires down { to ≤ from }
        requires written { from + n ≤ filled_of self.old }
        ensures moved { IsMovedDown (words_of self.old) (words_of self.new) from to n }
        ensures filled { filled_of self.new ≡ filled_of self.old }
    {
        for k in 0..n {
            let w = self.get_written(from + k);
            self.put_written(to + k, w);
        }
    }
}
