// The windows over Work, in two rows: one of pages that are written, one of pages that are only read.
ghost use Rattle.std.specs.Prelude.{◌≡◌, ◌≢◌, ◌+◌, ◌-◌, ◌^◌, ◌≤◌, ◌<◌, ◌%◌, ◌/◌, ℕ, List, [], IsTrue, IfOk, OnOk, length};
ghost use Rattle.loom_host.specs.Bytes.{window, overwritten};
ghost use Rattle.loom_host.specs.Outside.{HasCause};
ghost use Rattle.loom_host.specs.Work.{work_of, IsWorkRead, IsWorkOnly};
ghost use Rattle.loom_host.specs.declared.outside.Role.{Role};
ghost use Rattle.work_windows.specs.Blanks.{AreBlank};
ghost use Rattle.work_windows.specs.Windows.{IsShown, IsUnread, Over};
ghost use Rattle.work_windows.specs.Rows.{Stands};
ghost use Rattle.work_windows.specs.declared.window.TheConstants.{WIDTH};
ghost use Rattle.work_windows.specs.declared.windows.TheConstants.{WRITTEN, READ};

use crate::blanks::Blanks;
use crate::row::{Row, index_of};
use crate::window::WIDTH;
use loom_host::{Failed, Host, Role};
use std::alloc::Global;

/// How many windows there are at most for pages that are written.
pub const WRITTEN: usize = 1_088;

/// How many windows there are at most for pages that are only read.
pub const READ: usize = 544;

/// The most bytes of a piece that is read or written by windows.
pub const MOST: usize = WIDTH;

/// Windows over Work. What a window of `written` shows is kept back: the host inside may not have it. What one of `read` shows, and none of
/// `written`, it has.
#[derive(Drop)]
pub(crate) struct Windows {
    pub written: Row<WRITTEN>,
    pub read: Row<READ>,
    // Behind each byte that was written to a window.
    pub limit: u64,
    // Pages that the host inside was never written, so that none of them is read.
    pub blanks: Blanks,
}

impl Windows {
    #[tactic(auto, using(crate::proofs::RowLaws::empty_stands))]
    /// Windows of nothing.
    pub fn new(alloc: Global) -> Windows
        ensures { (work : List ℕ) → Stands work result work }
    {
        Windows {
            written: Row::new(alloc),
            read: Row::new(alloc),
            limit: 0,
            blanks: Blanks::unknown(),
        }
    }

    /// Reads from a place on over the whole buffer. A piece of at most `MOST` bytes goes by the windows of its pages, of which there are at most
    /// two, and a longer one goes to the host, with what is kept back put over it.
    pub fn read_at<H: Host>(
        &mut self,
        host: &mut H,
        place: u64,
        buf: &mut [u8],
    ) -> Result<(), Failed>
        ensures bytes { IsTrue (H.tells Role.Work) → (all : List ℕ) → Stands (work_of H.Host host.old) self.old all → OnOk result (buf.new ≡ window all place (length buf.old)) }
        ensures stands { IsTrue (H.tells Role.Work) → (all : List ℕ) → Stands (work_of H.Host host.old) self.old all → Stands (work_of H.Host host.new) self.new all }
        ensures written { self.new.written ≡ self.old.written }
        ensures limit { self.new.limit ≡ self.old.limit }
        ensures read { IsWorkRead H.Host host.old host.new }
        ensures cause { HasCause (H.faults host.old Role.Work) (H.faults host.new Role.Work) result }
    {
        let n = buf.len();
        if MOST < n || place.checked_add(n as u64).is_none() {
            return self.read_through(host, place, buf);
        }
        let room = WIDTH - (place % WIDTH as u64) as usize;
        if n <= room {
            return self.read_within(host, place, buf);
        }
        self.read_over(host, place, room, buf)
    }

    // Reads a piece over the edge of a page, so many bytes behind its place, in two parts.
    #[inline(never)]
    fn read_over<H: Host>(
        &mut self,
        host: &mut H,
        place: u64,
        room: usize,
        buf: &mut [u8],
    ) -> Result<(), Failed>
        requires edge { place % WIDTH + room ≡ WIDTH }
        requires room { room ≤ length buf.old }
        requires within { length buf.old ≤ WIDTH }
        requires end { place + length buf.old ≤ 2 ^ 64 - 1 }
        ensures bytes { IsTrue (H.tells Role.Work) → (all : List ℕ) → Stands (work_of H.Host host.old) self.old all → OnOk result (buf.new ≡ window all place (length buf.old)) }
        ensures stands { IsTrue (H.tells Role.Work) → (all : List ℕ) → Stands (work_of H.Host host.old) self.old all → Stands (work_of H.Host host.new) self.new all }
        ensures written { self.new.written ≡ self.old.written }
        ensures limit { self.new.limit ≡ self.old.limit }
        ensures read { IsWorkRead H.Host host.old host.new }
        ensures cause { HasCause (H.faults host.old Role.Work) (H.faults host.new Role.Work) result }
    {
        let (front, back) = buf.split_at_mut(room);
        self.read_within(host, place, front)?;
        self.read_within(host, place + room as u64, back)
    }

    // Reads a piece within a page: from a window that shows it, or zeros of one that was never written, or else from the window that it gets.
    // Where there is none, the host has it.
    #[inline(always)]
    fn read_within<H: Host>(
        &mut self,
        host: &mut H,
        place: u64,
        buf: &mut [u8],
    ) -> Result<(), Failed>
        requires { place % WIDTH + length buf.old ≤ WIDTH }
        ensures bytes { IsTrue (H.tells Role.Work) → (all : List ℕ) → Stands (work_of H.Host host.old) self.old all → OnOk result (buf.new ≡ window all place (length buf.old)) }
        ensures stands { IsTrue (H.tells Role.Work) → (all : List ℕ) → Stands (work_of H.Host host.old) self.old all → Stands (work_of H.Host host.new) self.new all }
        ensures written { self.new.written ≡ self.old.written }
        ensures limit { self.new.limit ≡ self.old.limit }
        ensures read { IsWorkRead H.Host host.old host.new }
        ensures cause { HasCause (H.faults host.old Role.Work) (H.faults host.new Role.Work) result }
    {
        if self.written.has(place) {
            self.written.give(place, buf);
            return Ok(());
        }
        if self.read.has(place) {
            self.read.give(place, buf);
            return Ok(());
        }
        if self.blanks.has(place) {
            buf.fill(0);
            return Ok(());
        }
        if self.shows(host, place)? {
            self.read.give(place, buf);
            return Ok(());
        }
        host.read_at(place, buf)
    }

    // Whether the page that a place lies in, which isn't kept back, is shown as one that is only read. It is read if it has a window and isn't.
    #[inline(never)]
    fn shows<H: Host>(&mut self, host: &mut H, place: u64) -> Result<bool, Failed>
        requires { IsShown WRITTEN self.old.written.items.items place → ⊥ }
        ensures shown { IfOk result (λ shown. IsTrue shown → IsShown READ self.new.read.items.items place) }
        ensures stands { IsTrue (H.tells Role.Work) → (all : List ℕ) → Stands (work_of H.Host host.old) self.old all → Stands (work_of H.Host host.new) self.new all }
        ensures written { self.new.written ≡ self.old.written }
        ensures limit { self.new.limit ≡ self.old.limit }
        ensures read { IsWorkRead H.Host host.old host.new }
        ensures cause { HasCause (H.faults host.old Role.Work) (H.faults host.new Role.Work) result }
    {
        if !self.read.reach(place) {
            return Ok(false);
        }
        if self.read.has(place) {
            return Ok(true);
        }
        self.read.fetch(host, place)?;
        Ok(true)
    }

    // Reads from the host, and puts what is kept back over it.
    fn read_through<H: Host>(&self, host: &mut H, place: u64, buf: &mut [u8]) -> Result<(), Failed>
        ensures bytes { IsTrue (H.tells Role.Work) → (all : List ℕ) → Stands (work_of H.Host host.old) self.now all → OnOk result (buf.new ≡ window all place (length buf.old)) }
        ensures read { IsWorkRead H.Host host.old host.new }
        ensures cause { HasCause (H.faults host.old Role.Work) (H.faults host.new Role.Work) result }
    {
        host.read_at(place, buf)?;
        self.cover(place, buf);
        Ok(())
    }

    // Puts what is kept back over bytes that were read from the host, page by page. Past the limit there is none.
    fn cover(&self, place: u64, buf: &mut [u8])
        ensures { (work all : List ℕ) → Over work self.now.written.items.items self.now.limit all → buf.old ≡ window work place (length buf.old) → buf.new ≡ window all place (length buf.old) }
    {
        let mut done = 0;
        while done < buf.len() {
            let at = place.saturating_add(done as u64);
            if self.limit <= at {
                return;
            }
            let room = WIDTH - (at % WIDTH as u64) as usize;
            let end = done + room.min(buf.len() - done);
            self.cover_within(at, &mut buf[done..end]);
            done = end;
        }
    }

    // Puts what is kept back over bytes within its page.
    fn cover_within(&self, place: u64, buf: &mut [u8])
        requires { place % WIDTH + length buf.old ≤ WIDTH }
        ensures { (work all : List ℕ) → Over work self.now.written.items.items self.now.limit all → buf.old ≡ window work place (length buf.old) → buf.new ≡ window all place (length buf.old) }
    {
        if self.written.has(place) {
            self.written.give(place, buf);
        }
    }

    /// Writes to a place: a piece of at most `MOST` bytes to the windows of its pages, of which there are at most two, and a longer one to
    /// the host.
    pub fn write_at<H: Host>(
        &mut self,
        host: &mut H,
        place: u64,
        piece: &[u8],
    ) -> Result<(), Failed>
        ensures stands { IsTrue (H.tells Role.Work) → (all : List ℕ) → Stands (work_of H.Host host.old) self.old all → OnOk result (Stands (work_of H.Host host.new) self.new (overwritten all place piece.now)) }
        ensures host { IsWorkOnly H.Host host.old host.new }
        ensures cause { HasCause (H.faults host.old Role.Work) (H.faults host.new Role.Work) result }
    {
        let n = piece.len();
        if MOST < n || place.checked_add(n as u64).is_none() {
            return self.write_through(host, place, piece);
        }
        let room = WIDTH - (place % WIDTH as u64) as usize;
        if n <= room {
            return self.write_within(host, place, piece);
        }
        self.write_within(host, place, &piece[..room])?;
        self.write_within(host, place + room as u64, &piece[room..])
    }

    // Writes a piece within a page: to its window, where that shows it or is to show it, or else to the host.
    fn write_within<H: Host>(
        &mut self,
        host: &mut H,
        place: u64,
        piece: &[u8],
    ) -> Result<(), Failed>
        requires within { place % WIDTH + length piece.now ≤ WIDTH }
        requires end { place + length piece.now ≤ 2 ^ 64 - 1 }
        ensures stands { IsTrue (H.tells Role.Work) → (all : List ℕ) → Stands (work_of H.Host host.old) self.old all → OnOk result (Stands (work_of H.Host host.new) self.new (overwritten all place piece.now)) }
        ensures host { IsWorkOnly H.Host host.old host.new }
        ensures cause { HasCause (H.faults host.old Role.Work) (H.faults host.new Role.Work) result }
    {
        if !self.written.reach(place) {
            return self.write_through(host, place, piece);
        }
        if !self.written.has(place) {
            self.turn(host, place)?;
        }
        self.put(place, piece);
        Ok(())
    }

    // Writes to the host, after which windows take it over.
    fn write_through<H: Host>(
        &mut self,
        host: &mut H,
        place: u64,
        piece: &[u8],
    ) -> Result<(), Failed>
        ensures stands { IsTrue (H.tells Role.Work) → (all : List ℕ) → Stands (work_of H.Host host.old) self.old all → OnOk result (Stands (work_of H.Host host.new) self.new (overwritten all place piece.now)) }
        ensures host { IsWorkOnly H.Host host.old host.new }
        ensures cause { HasCause (H.faults host.old Role.Work) (H.faults host.new Role.Work) result }
    {
        host.write_at(place, piece)?;
        self.blanks.note(place, piece.len());
        self.written.follow(place, piece);
        self.read.follow(place, piece);
        Ok(())
    }

    // Has the page that a place lies in shown as one that is written. What its window showed goes to the host first.
    fn turn<H: Host>(&mut self, host: &mut H, place: u64) -> Result<(), Failed>
        requires there { place / WIDTH % WRITTEN < length self.old.written.items.items }
        ensures shown { OnOk result (IsShown WRITTEN self.new.written.items.items place) }
        ensures stands { IsTrue (H.tells Role.Work) → (all : List ℕ) → Stands (work_of H.Host host.old) self.old all → OnOk result (Stands (work_of H.Host host.new) self.new all) }
        ensures host { IsWorkOnly H.Host host.old host.new }
        ensures cause { HasCause (H.faults host.old Role.Work) (H.faults host.new Role.Work) result }
    {
        self.save(host, place)?;
        if self.read.has(place) {
            self.written.take(&self.read, place);
            return Ok(());
        }
        if self.blanks.has(place) {
            self.written.blank(place);
            return Ok(());
        }
        self.written.fetch(host, place)
    }

    // Writes to the host what the window of a place shows, if it shows any. It is a window of nothing then.
    fn save<H: Host>(&mut self, host: &mut H, place: u64) -> Result<(), Failed>
        requires there { place / WIDTH % WRITTEN < length self.old.written.items.items }
        ensures there { length self.new.written.items.items ≡ length self.old.written.items.items }
        ensures unread { OnOk result (IsUnread self.new.written.items.items (place / WIDTH % WRITTEN)) }
        ensures over { IsTrue (H.tells Role.Work) → (all : List ℕ) → Over (work_of H.Host host.old) self.old.written.items.items self.old.limit all → OnOk result (Over (work_of H.Host host.new) self.new.written.items.items self.new.limit all) }
        ensures blank { IsTrue (H.tells Role.Work) → AreBlank (work_of H.Host host.old) self.old.blanks → OnOk result (AreBlank (work_of H.Host host.new) self.new.blanks) }
        ensures read { self.new.read ≡ self.old.read }
        ensures limit { self.new.limit ≡ self.old.limit }
        ensures host { IsWorkOnly H.Host host.old host.new }
        ensures cause { HasCause (H.faults host.old Role.Work) (H.faults host.new Role.Work) result }
    {
        let index = index_of(place, WRITTEN);
        self.blanks.note_shown(&self.written.items[index]);
        self.written.items[index].save(host, self.limit)
    }

    // Puts a piece into the window that shows its page.
    fn put(&mut self, place: u64, piece: &[u8])
        requires within { place % WIDTH + length piece.now ≤ WIDTH }
        requires end { place + length piece.now ≤ 2 ^ 64 - 1 }
        requires shown { IsShown WRITTEN self.old.written.items.items place }
        ensures { (work all : List ℕ) → Stands work self.old all → Stands work self.new (overwritten all place piece.now) }
    {
        self.written.follow_within(place, piece);
        self.read.follow_within(place, piece);
        self.limit = self.limit.max(place + piece.len() as u64);
    }

    /// Before a file is attached for a role: where that is Work, each becomes a window of nothing.
    pub fn attached(&mut self, role: Role)
        ensures anew { role ≡ Role.Work → (work : List ℕ) → Stands work self.new work }
        ensures same { role ≢ Role.Work → self.new ≡ self.old }
    {
        if role == Role::Work {
            self.forget();
        }
    }

    /// Behind an attach for a role, which went through or not: where Work was attached, it is empty.
    pub fn began(&mut self, role: Role, went: bool)
        ensures stands { (work all : List ℕ) → (IsTrue went → role ≡ Role.Work → work ≡ []) → Stands work self.old all → Stands work self.new all }
        ensures written { self.new.written ≡ self.old.written }
        ensures limit { self.new.limit ≡ self.old.limit }
    {
        if went && role == Role::Work {
            self.blanks = Blanks::empty();
        }
    }

    #[tactic(auto, using(crate::proofs::RowLaws::empty_stands))]
    /// Makes each a window of nothing. Any page may hold anything then.
    pub fn forget(&mut self)
        ensures { (work : List ℕ) → Stands work self.new work }
    {
        self.written.forget();
        self.read.forget();
        self.limit = 0;
        self.blanks = Blanks::unknown();
    }
}
