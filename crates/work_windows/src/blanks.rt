// Which pages of Work the host inside was never written.
ghost use Rattle.std.specs.Prelude.{◌≡◌, ◌+◌, ◌≤◌, ◌<◌, ◌/◌, ℕ, Some, true, not};
ghost use Rattle.work_windows.specs.Blanks.{may_hold};
ghost use Rattle.work_windows.specs.declared.window.TheConstants.{WIDTH};

use crate::window::{WIDTH, Window};

// The words that have a bit for each page.
const WORDS: usize = 1_024;

/// Of how many pages it is known whether they were written: those of the first 256 MB.
pub(crate) const PAGES: u64 = 64 * WORDS as u64;

/// A bit for each of the first pages of Work, set once the host inside was written there since Work was attached; the others are zeros there.
/// Of pages behind them nothing is known, nor of any before Work was attached.
#[derive(Drop)]
pub(crate) struct Blanks {
    pub words: [u64; WORDS],
    // whether Work was empty when no bit was set
    pub known: bool,
}

impl Blanks {
    /// Any page may hold anything.
    pub fn unknown() -> Blanks
        ensures { (page : ℕ) → may_hold result page ≡ true }
    {
        Blanks {
            words: [0; WORDS],
            known: false,
        }
    }

    /// Nothing was written yet, to a Work that is empty.
    pub fn empty() -> Blanks {
        Blanks {
            words: [0; WORDS],
            known: true,
        }
    }

    /// Whether the page that a place lies in is known to be zeros.
    pub fn has(&self, place: u64) -> bool
        ensures { result ≡ not (may_hold self.now (place / WIDTH)) }
    {
        let page = place / WIDTH as u64;
        if !self.known {
            return false;
        }
        if PAGES <= page {
            return false;
        }
        !((self.words[(page / 64) as usize] >> (page % 64)) & 1 == 1)
    }

    // A page was written.
    fn note_page(&mut self, page: u64)
        requires few { page < PAGES }
        ensures kept { (other : ℕ) → may_hold self.old other ≡ true → may_hold self.new other ≡ true }
        ensures noted { may_hold self.new page ≡ true }
    {
        self.words[(page / 64) as usize] |= 1u64 << (page % 64);
    }

    /// So many bytes were written from a place on.
    pub fn note(&mut self, place: u64, n: usize)
        ensures kept { (page : ℕ) → may_hold self.old page ≡ true → may_hold self.new page ≡ true }
        ensures noted { (k : ℕ) → place ≤ k → k < place + n → may_hold self.new (k / WIDTH) ≡ true }
    {
        if n == 0 {
            return;
        }
        let last = place.saturating_add(n as u64 - 1) / WIDTH as u64;
        let end = PAGES.min(last + 1);
        let mut page = place / WIDTH as u64;
        while page < end {
            self.note_page(page);
            page += 1;
        }
    }

    /// The page that a window shows was written, if it shows any.
    pub fn note_shown(&mut self, window: &Window)
        ensures kept { (page : ℕ) → may_hold self.old page ≡ true → may_hold self.new page ≡ true }
        ensures noted { (own k : ℕ) → window.now.place ≡ Some own → own ≤ k → k < own + WIDTH → may_hold self.new (k / WIDTH) ≡ true }
    {
        if let Some(own) = window.place {
            self.note(own, WIDTH);
        }
    }
}
