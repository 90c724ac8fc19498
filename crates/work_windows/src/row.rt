// A row of windows over Work: each page of it has one place among them, which it shares with others.
ghost use Rattle.std.specs.Prelude.{◌≡◌, ◌+◌, ◌-◌, ◌≤◌, ◌<◌, ◌%◌, ◌/◌, ◌↔◌, ℕ, List, [], None, IsTrue, OnOk, length};
ghost use Rattle.loom_host.specs.Bytes.{window, overwritten};
ghost use Rattle.loom_host.specs.Outside.{HasCause};
ghost use Rattle.loom_host.specs.Work.{work_of, IsWorkRead};
ghost use Rattle.loom_host.specs.declared.outside.Role.{Role};
ghost use Rattle.work_windows.specs.Windows.{AllShow, IsShown, IsUnread, kept_at};
ghost use Rattle.work_windows.specs.declared.window.TheConstants.{WIDTH};

use crate::window::{WIDTH, Window};
use loom_host::{Failed, Host, Role};
use std::alloc::Global;

// So many windows are added at once.
const STEP: usize = 16;

/// A row of windows over Work. A page is the bytes from a multiple of `WIDTH` on; page p is shown by window p % `COUNT` or by none.
#[derive(Drop)]
pub(crate) struct Row<const COUNT: usize> {
    // There is room for all from the start on. They are added as far as they are used.
    pub items: Vec<Window>,
}

/// Where the page of a place has its window, among so many.
pub(crate) fn index_of(place: u64, count: usize) -> usize
    requires { 0 < count }
    ensures { result ≡ place / WIDTH % count }
{
    (place / WIDTH as u64 % count as u64) as usize
}

// How many windows there are where one with this index is wanted, of at most so many.
fn grown(index: usize, most: usize) -> usize
    requires { index < most }
    ensures { index < result }
{
    most.min(index.saturating_add(STEP))
}

impl<const COUNT: usize> Row<COUNT> {
    /// Windows of nothing. Where memory for them is refused there are none, and all goes to the host.
    pub fn new(alloc: Global) -> Row<COUNT>
        ensures { result.items.items ≡ [] }
    {
        match Vec::with_capacity(alloc, COUNT) {
            Ok(items) => Row { items },
            Err(_) => Row {
                items: Vec::new(alloc),
            },
        }
    }

    /// Whether there is a window for the page that a place lies in. Windows of nothing are added up to it if need be, unless memory was
    /// refused.
    pub fn reach(&mut self, place: u64) -> bool
        requires some { 0 < COUNT }
        ensures there { IsTrue result → place / WIDTH % COUNT < length self.new.items.items }
        ensures shows { (work : List ℕ) → AllShow COUNT work self.old.items.items → AllShow COUNT work self.new.items.items }
        ensures kept { (k : ℕ) → kept_at COUNT self.new.items.items k ≡ kept_at COUNT self.old.items.items k }
    {
        let index = index_of(place, COUNT);
        index < self.items.len() || self.grow(index)
    }

    // Adds windows of nothing up to this one and a few more, unless memory was refused. It stands apart from `reach`, which goes with each
    // call and so holds no window of its own.
    fn grow(&mut self, index: usize) -> bool
        requires { length self.old.items.items ≤ index }
        ensures there { IsTrue result → index < length self.new.items.items }
        ensures shows { (work : List ℕ) → AllShow COUNT work self.old.items.items → AllShow COUNT work self.new.items.items }
        ensures kept { (k : ℕ) → kept_at COUNT self.new.items.items k ≡ kept_at COUNT self.old.items.items k }
    {
        index < self.items.capacity()
            && self
                .items
                .resize(grown(index, self.items.capacity()), Window::unread())
                .is_ok()
    }

    /// Whether the page that a place lies in is shown.
    #[inline(always)]
    pub fn has(&self, place: u64) -> bool
        requires some { 0 < COUNT }
        ensures { IsTrue result ↔ IsShown COUNT self.now.items.items place }
    {
        let index = index_of(place, COUNT);
        index < self.items.len() && self.items[index].is_at(place - place % WIDTH as u64)
    }

    /// Reads the page that a place lies in.
    pub fn fetch<H: Host>(&mut self, host: &mut H, place: u64) -> Result<(), Failed>
        requires some { 0 < COUNT }
        requires there { place / WIDTH % COUNT < length self.old.items.items }
        ensures shown { OnOk result (IsShown COUNT self.new.items.items place) }
        ensures shows { IsTrue (H.tells Role.Work) → (all : List ℕ) → window (work_of H.Host host.old) (place - place % WIDTH) WIDTH ≡ window all (place - place % WIDTH) WIDTH → AllShow COUNT all self.old.items.items → AllShow COUNT all self.new.items.items }
        ensures kept { IsUnread self.old.items.items (place / WIDTH % COUNT) → (k : ℕ) → kept_at COUNT self.new.items.items k ≡ None → kept_at COUNT self.old.items.items k ≡ None }
        ensures read { IsWorkRead H.Host host.old host.new }
        ensures cause { HasCause (H.faults host.old Role.Work) (H.faults host.new Role.Work) result }
    {
        let index = index_of(place, COUNT);
        self.items[index].fetch(host, place - place % WIDTH as u64)
    }

    /// Shows the page that a place lies in, which is all zeros.
    pub fn blank(&mut self, place: u64)
        requires some { 0 < COUNT }
        requires there { place / WIDTH % COUNT < length self.old.items.items }
        ensures shown { IsShown COUNT self.new.items.items place }
        ensures shows { (all : List ℕ) → window [] (place - place % WIDTH) WIDTH ≡ window all (place - place % WIDTH) WIDTH → AllShow COUNT all self.old.items.items → AllShow COUNT all self.new.items.items }
        ensures kept { IsUnread self.old.items.items (place / WIDTH % COUNT) → (k : ℕ) → kept_at COUNT self.new.items.items k ≡ None → kept_at COUNT self.old.items.items k ≡ None }
    {
        let index = index_of(place, COUNT);
        self.items[index].blank(place - place % WIDTH as u64);
    }

    /// Shows the page that a place lies in as another row shows it.
    pub fn take<const OTHER: usize>(&mut self, other: &Row<OTHER>, place: u64)
        requires some { 0 < COUNT }
        requires there { place / WIDTH % COUNT < length self.old.items.items }
        requires others { 0 < OTHER }
        requires from { IsShown OTHER other.now.items.items place }
        ensures shown { IsShown COUNT self.new.items.items place }
        ensures shows { (all : List ℕ) → AllShow OTHER all other.now.items.items → AllShow COUNT all self.old.items.items → AllShow COUNT all self.new.items.items }
        ensures kept { IsUnread self.old.items.items (place / WIDTH % COUNT) → (k : ℕ) → kept_at COUNT self.new.items.items k ≡ None → kept_at COUNT self.old.items.items k ≡ None }
    {
        let index = index_of(place, COUNT);
        self.items[index].take(&other.items[index_of(place, OTHER)]);
    }

    /// Gives bytes of a page that is shown.
    #[inline(always)]
    pub fn give(&self, place: u64, buf: &mut [u8])
        requires some { 0 < COUNT }
        requires within { place % WIDTH + length buf.old ≤ WIDTH }
        requires shown { IsShown COUNT self.now.items.items place }
        ensures { (all : List ℕ) → AllShow COUNT all self.now.items.items → buf.new ≡ window all place (length buf.old) }
    {
        let from = (place % WIDTH as u64) as usize;
        let window = &self.items[index_of(place, COUNT)];
        buf.copy_from_slice(&window.bytes[from..from + buf.len()]);
    }

    /// Takes over what was written to a place, page by page. Only the windows of these pages are looked at.
    pub fn follow(&mut self, place: u64, piece: &[u8])
        requires some { 0 < COUNT }
        ensures shows { (all : List ℕ) → AllShow COUNT all self.old.items.items → AllShow COUNT (overwritten all place piece.now) self.new.items.items }
        ensures kept { (k : ℕ) → kept_at COUNT self.new.items.items k ≡ None → kept_at COUNT self.old.items.items k ≡ None }
    {
        let mut done = 0;
        while done < piece.len() {
            let Some(at) = place.checked_add(done as u64) else {
                return;
            };
            let room = WIDTH - (at % WIDTH as u64) as usize;
            let end = done + room.min(piece.len() - done);
            self.follow_within(at, &piece[done..end]);
            done = end;
        }
    }

    /// Takes over what was written within a page.
    pub fn follow_within(&mut self, place: u64, piece: &[u8])
        requires some { 0 < COUNT }
        requires within { place % WIDTH + length piece.now ≤ WIDTH }
        ensures shows { (all : List ℕ) → AllShow COUNT all self.old.items.items → AllShow COUNT (overwritten all place piece.now) self.new.items.items }
        ensures kept { (k : ℕ) → kept_at COUNT self.new.items.items k ≡ None → kept_at COUNT self.old.items.items k ≡ None }
        ensures shown { IsShown COUNT self.old.items.items place → IsShown COUNT self.new.items.items place }
    {
        let from = (place % WIDTH as u64) as usize;
        let index = index_of(place, COUNT);
        if index < self.items.len() {
            self.items[index].follow(place - from as u64, from, piece);
        }
    }

    /// Makes each a window of nothing.
    pub fn forget(&mut self)
        ensures { self.new.items.items ≡ [] }
    {
        self.items.clear();
    }
}
