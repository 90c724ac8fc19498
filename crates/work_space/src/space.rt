// Blocks are taken and given back. Those that are out lie apart from one another, and a free one is taken before a new one is laid.
use crate::limits::{LAST_END, SIZE_CLASSES, SMALLEST_BLOCK};
use crate::link::{read_link, write_link};
use crate::size_class::block_bytes;
use loom_host::{DiskFault, Host, Role};

/// The blocks of a work file, from a place on. It holds no more than where they begin and end and, for each size class, the place of the
/// first free block. Each free block holds the place of the next one of its size class in its first 8 bytes, the highest first, and the
/// last one 0. Which blocks are out is for the caller to know.
#[derive(Drop)]
pub struct Space {
    from: u64,
    end: u64,
    heads: [u64; SIZE_CLASSES],
}

impl Space {
    ghost use Rattle.std.specs.Prelude.{◌≡◌, ◌+◌, ◌<◌, ◌≤◌, ◌^◌, ℕ, List, [], Option, None, Some, length, false, IsTrue, IfOk, IfErr, OnOk, OnErr, MatchResult};
    ghost use Rattle.work_space.specs.Blocks.{AreFew, block_size};
    ghost use Rattle.work_space.specs.Calls.{IsTakeFault, IsDamagedBy, IsFullAt};
    ghost use Rattle.loom_host.specs.Work.{IsWorkRead, IsWorkWritten, IsWorkFault, work_of};
    ghost use Rattle.work_space.specs.Space.{IsSpace, Takes, Gives, end_of, from_of, first_of, is_broken, is_link, next_place, next_end};

    /// No block is laid. The first one will be laid at this place, and Work may contain anything before it.
    pub fn new(from: u64) -> Space
        requires { 0 < from }
        ensures space { (work : List ℕ) → length work ≤ from → IsSpace result work [] (λ p. None) }
        ensures from { from_of result ≡ from }
        ensures end { end_of result ≡ from }
    {
        Space {
            from,
            end: from,
            heads: [0; SIZE_CLASSES],
        }
    }

    /// The place where the next block is laid. No byte of Work is used from there on.
    #[tactic(auto, unfolding(crate::specs::Space::end_of))]
    pub fn end(&self) -> u64
        ensures { result ≡ end_of self.now }
    {
        self.end
    }

    /// Takes a block of a size class, and answers its place: the first free one, or else a new one behind all others. Its bytes may be
    /// anything. It is Damaged where the link of the free block can't be one, or a new one would end behind 2 to the 62.
    pub fn take<H: Host>(&mut self, host: &mut H, c: u8) -> Result<u64, DiskFault>
        requires { c < SIZE_CLASSES }
        ensures takes { IsTrue (H.tells Role.Work) → (laid : List ℕ) (out : ℕ → Option ℕ) →
            IsSpace self.old (work_of H.Host host.old) laid out → IfOk result (Takes self.old self.new (work_of H.Host host.new) laid out c) }
        ensures place { IfOk result (λ place. (place ≡ next_place self.old c) × (end_of self.new ≡ next_end self.old c)) }
        ensures fault { IfErr result (IsTakeFault self.old c (H.faults host.old Role.Work) (H.faults host.new Role.Work)) }
        ensures told { IsTrue (H.tells Role.Work) → let broken = is_broken self.old (work_of H.Host host.old) c in
            MatchResult result (λ place. broken ≡ false) (IsDamagedBy broken) }
        ensures sound { IsTrue (H.tells Role.Work) → (laid : List ℕ) (out : ℕ → Option ℕ) →
            IsSpace self.old (work_of H.Host host.old) laid out → AreFew laid → from_of self.old < 2 ^ 61 →
            IfErr result (IsWorkFault (H.faults host.old Role.Work) (H.faults host.new Role.Work)) }
        ensures from { from_of self.new ≡ from_of self.old }
        ensures err { OnErr result (self.new ≡ self.old) }
        ensures host { IsWorkRead H.Host host.old host.new }
    {
        let place = self.heads[c as usize];
        if place == 0 {
            return self.lay(c);
        }
        let next = read_link(host, place)?;
        if !self.is_link(next) {
            return Err(DiskFault::Damaged { place, name: 0 });
        }
        self.heads[c as usize] = next;
        Ok(place)
    }

    /// Gives back the block of a size class that is out at this place. After a fault Work may contain anything.
    pub fn give<H: Host>(&mut self, host: &mut H, place: u64, c: u8) -> Result<(), DiskFault>
        requires { c < SIZE_CLASSES }
        ensures gives { IsTrue (H.tells Role.Work) → (laid : List ℕ) (out : ℕ → Option ℕ) →
            IsSpace self.old (work_of H.Host host.old) laid out → out place ≡ Some c →
            OnOk result (Gives self.old self.new (work_of H.Host host.old) (work_of H.Host host.new) laid out c place) }
        ensures fault { IfErr result (IsWorkFault (H.faults host.old Role.Work) (H.faults host.new Role.Work)) }
        ensures from { from_of self.new ≡ from_of self.old }
        ensures end { end_of self.new ≡ end_of self.old }
        ensures err { OnErr result (self.new ≡ self.old) }
        ensures host { IsWorkWritten H.Host host.old host.new }
    {
        write_link(host, place, self.heads[c as usize])?;
        self.heads[c as usize] = place;
        Ok(())
    }

    /// Lays a new block behind all others.
    #[tactic(auto, unfolding(crate::specs::Space::from_of, crate::specs::Space::end_of, crate::specs::Space::first_of))]
    fn lay(&mut self, c: u8) -> Result<u64, DiskFault>
        requires { c < SIZE_CLASSES }
        ensures place { IfOk result (λ place. place ≡ end_of self.old) }
        ensures room { OnOk result (end_of self.old + block_size c ≤ LAST_END) }
        ensures end { OnOk result (end_of self.new ≡ end_of self.old + block_size c) }
        ensures heads { (d : ℕ) → first_of self.new d ≡ first_of self.old d }
        ensures from { from_of self.new ≡ from_of self.old }
        ensures full { IfErr result (IsFullAt (end_of self.old) c) }
        ensures err { OnErr result (self.new ≡ self.old) }
    {
        let place = self.end;
        let bytes = block_bytes(c);
        if place > LAST_END - bytes {
            return Err(DiskFault::Damaged { place, name: 0 });
        }
        self.end = place + bytes;
        Ok(place)
    }

    /// Whether this may be the link of a free block: the place of a block, or 0.
    #[inline(always)]
    fn is_link(&self, link: u64) -> bool
        ensures { result ≡ is_link self.now link }
    {
        link == 0
            || (self.from <= link && link < self.end && (link - self.from) % SMALLEST_BLOCK == 0)
    }
}
