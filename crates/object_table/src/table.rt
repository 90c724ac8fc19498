// The table of entries. Those that were ever in use are its first ones, and the free ones of these are known by their places, so that one is
// taken or given back in constant time.
ghost use Rattle.std.specs.Prelude.{◌≡◌, ◌+◌, ◌≤◌, length, vec_capacity};
ghost use Rattle.object_table.specs.declared.table.TheConstants.{MOST_ENTRIES};
ghost use Rattle.object_table.specs.Inside.{ArePlain, IsNoted, IsVacant};

use crate::entry::{Entry, Short};
use long_names::Name;
use std::alloc::{AllocError, Global};

/// The most entries of a table: as many short words are even and above 0.
pub const MOST_ENTRIES: u16 = 32_767;

/// Entries under the short names from 2 on. Each is free or in use.
#[derive(Drop)]
pub struct Table {
    // How many entries it was made with.
    size: u16,
    // Those that were ever in use. All behind them are free.
    entries: Vec<Entry>,
    // The places of those of them that are free again.
    vacant: Vec<u16>,
    free: u16,
    // The places of entries that were marked since all marks were taken away, each once, and which they are.
    noted: Vec<u16>,
    listed: Vec<bool>,
    ghost small: { size ≤ MOST_ENTRIES },
    ghost within: { length entries.items ≤ size },
    ghost known: { IsVacant entries.items vacant.items },
    ghost counted: { free + length entries.items ≡ size + length vacant.items },
    ghost marks: { IsNoted entries.items listed.items noted.items },
    ghost rooms: { (size ≤ vec_capacity entries) × (size ≤ vec_capacity vacant) × (size ≤ vec_capacity noted) × (size ≤ vec_capacity listed) },
}

// Takes the marks away from the entries at these places.
fn unmark(entries: &mut Vec<Entry>, listed: &mut Vec<bool>, noted: &mut Vec<u16>)
    requires { IsNoted entries.old.items listed.old.items noted.old.items }
    ensures entries { ArePlain entries.old.items entries.new.items }
    ensures marks { IsNoted entries.new.items listed.new.items noted.new.items }
    ensures rooms { (vec_capacity entries.new ≡ vec_capacity entries.old) × (vec_capacity noted.new ≡ vec_capacity noted.old) × (vec_capacity listed.new ≡ vec_capacity listed.old) }
{
    for i in 0..noted.len() {
        let place = noted[i] as usize;
        let mut entry = entries[place];
        entry.flags.marked = false;
        entries[place] = entry;
        listed[place] = false;
    }
    noted.clear();
}

impl Table {
    ghost use Rattle.std.specs.Prelude.{◌≡◌, ◌+◌, ◌*◌, ◌<◌, ◌^◌, ℕ, IfOk, IfSome, IfNone, true, false, ◌-◌, length, slice_index_or};
    ghost use Rattle.object_table.specs.Entries.{put, is_short, is_used, is_free, free_entry, leaf_entry, with_refs, with_change_of, with_changed, with_touched, with_no_mark};
    ghost use Rattle.object_table.specs.Table.{entry_at, entries_of, bound_of, free_of};

    /// A table of so many entries, all of them free. What it takes isn't written before it is used.
    pub fn new(alloc: Global, entries: u16) -> Result<Table, AllocError>
        requires { entries ≤ MOST_ENTRIES }
        ensures entry { IfOk result (λ t. entry_at t ≡ (λ s. free_entry)) }
        ensures entries { IfOk result (λ t. entries_of t ≡ entries) }
        ensures free { IfOk result (λ t. free_of t ≡ entries) }
    {
        Ok(Table {
            size: entries,
            entries: Vec::with_capacity(alloc, entries as usize)?,
            vacant: Vec::with_capacity(alloc, entries as usize)?,
            free: entries,
            noted: Vec::with_capacity(alloc, entries as usize)?,
            listed: Vec::with_capacity(alloc, entries as usize)?,
        })
    }

    /// How many entries it was made with.
    #[inline(always)]
    pub fn entries(&self) -> u16
        ensures entries { result ≡ entries_of self.now }
        ensures small { result ≤ MOST_ENTRIES }
    {
        self.size
    }

    /// How many of its first entries were ever in use. All others are free, so a sweep may end there.
    #[inline(always)]
    pub fn used_end(&self) -> u16
        ensures used { (s : ℕ) → is_used (entry_at self.now s).state ≡ true → s ≤ 2 * result }
        ensures most { result ≤ entries_of self.now }
        ensures small { result ≤ MOST_ENTRIES }
    {
        self.entries.len() as u16
    }

    /// How many entries are free.
    #[inline(always)]
    pub fn free(&self) -> u16
        ensures free { result ≡ free_of self.now }
        ensures most { result ≤ entries_of self.now }
    {
        self.free
    }

    /// The entry of a short name, which may be free.
    #[inline(always)]
    pub fn entry(&self, s: Short) -> Entry
        requires short { is_short s.0 ≡ true }
        requires within { s.0 < bound_of self.now }
        ensures { result ≡ entry_at self.now s.0 }
    {
        let place = s.index();
        if place < self.entries.len() {
            return self.entries[place];
        }
        Entry::none()
    }

    /// The entry of a short name that is in use, as the caller knows: nothing is asked of the table for it.
    #[inline(always)]
    pub fn used_entry(&self, s: Short) -> Entry
        requires { is_used (entry_at self.now s.0).state ≡ true }
        ensures { result ≡ entry_at self.now s.0 }
    {
        let place = s.index();
        self.entries[place]
    }

    // Notes the place of an entry, if it isn't noted yet.
    #[cold]
    #[inline(never)]
    fn note_at(&mut self, place: usize)
        requires { place < length self.old.entries.items }
        ensures noted { slice_index_or self.new.listed.items place false ≡ true }
        ensures entries { self.new.entries ≡ self.old.entries }
        ensures size { self.new.size ≡ self.old.size }
        ensures vacant { self.new.vacant ≡ self.old.vacant }
        ensures free { self.new.free ≡ self.old.free }
    {
        if self.listed[place] {
            return;
        }
        self.listed[place] = true;
        self.noted.push_reserved(place as u16);
    }

    // The same where the entry is to be marked.
    #[inline(always)]
    fn note(&mut self, place: usize, marked: bool)
        requires { place < length self.old.entries.items }
        ensures noted { marked ≡ true → slice_index_or self.new.listed.items place false ≡ true }
        ensures entries { self.new.entries ≡ self.old.entries }
        ensures size { self.new.size ≡ self.old.size }
        ensures vacant { self.new.vacant ≡ self.old.vacant }
        ensures free { self.new.free ≡ self.old.free }
    {
        if marked {
            self.note_at(place);
        }
    }

    /// Changes an entry that is in use.
    #[inline(always)]
    pub fn set(&mut self, s: Short, e: Entry)
        requires short { is_short s.0 ≡ true }
        requires within { s.0 < bound_of self.old }
        requires used { is_used (entry_at self.old s.0).state ≡ true }
        requires stays { is_used e.state ≡ true }
        ensures entry { entry_at self.new ≡ put (entry_at self.old) s.0 e }
        ensures entries { entries_of self.new ≡ entries_of self.old }
        ensures free { free_of self.new ≡ free_of self.old }
    {
        let entry = e;
        let place = s.index();
        self.note(place, entry.flags.marked);
        self.entries[place] = entry;
    }

    // Puts an entry where a free one is: at one that is free again, or behind those that were ever in use.
    #[inline(always)]
    fn fill(&mut self, e: Entry) -> u16
        requires some { 0 < free_of self.old }
        requires used { is_used e.state ≡ true }
        requires plain { e.flags.marked ≡ false }
        ensures within { result < entries_of self.old }
        ensures was_free { is_free (entry_at self.old (2 * (result + 1))) ≡ true }
        ensures entry { entry_at self.new ≡ put (entry_at self.old) (2 * (result + 1)) e }
        ensures free { free_of self.new + 1 ≡ free_of self.old }
        ensures entries { entries_of self.new ≡ entries_of self.old }
    {
        let entry = e;
        self.free -= 1;
        if let Some(place) = self.vacant.pop() {
            self.entries[place as usize] = entry;
            return place;
        }
        let place = self.entries.len() as u16;
        self.entries.push_reserved(entry);
        self.listed.push_reserved(false);
        place
    }

    /// Makes a free entry a leaf of this name. None exactly where all are in use.
    #[inline(always)]
    pub fn take(&mut self, name: Name) -> Option<Short>
        ensures short { IfSome result (λ s. (is_short s.0 ≡ true) × (s.0 < bound_of self.old)) }
        ensures was_free { IfSome result (λ s. is_free (entry_at self.old s.0) ≡ true) }
        ensures entry { IfSome result (λ s. entry_at self.new ≡ put (entry_at self.old) s.0 (leaf_entry name)) }
        ensures free { IfSome result (λ s. free_of self.new + 1 ≡ free_of self.old) }
        ensures entries { entries_of self.new ≡ entries_of self.old }
        ensures none { IfNone result ((free_of self.old ≡ 0) × (self.new ≡ self.old)) }
    {
        if self.free == 0 {
            return None;
        }
        let place = self.fill(Entry::leaf(name));
        Some(Short(2 * (place + 1)))
    }

    /// Frees an entry that is in use.
    #[inline(always)]
    pub fn give(&mut self, s: Short)
        requires short { is_short s.0 ≡ true }
        requires within { s.0 < bound_of self.old }
        requires used { is_used (entry_at self.old s.0).state ≡ true }
        ensures entry { entry_at self.new ≡ put (entry_at self.old) s.0 free_entry }
        ensures entries { entries_of self.new ≡ entries_of self.old }
        ensures free { free_of self.new ≡ free_of self.old + 1 }
    {
        let place = s.index();
        self.entries[place] = Entry::none();
        self.vacant.push_reserved(place as u16);
        self.free += 1;
    }

    /// Takes all marks away, in a time that grows with the entries that were marked since the last time.
    #[cold]
    #[inline(never)]
    pub fn unmark_all(&mut self)
        ensures entry { entry_at self.new ≡ (λ s. with_no_mark (entry_at self.old s)) }
        ensures entries { entries_of self.new ≡ entries_of self.old }
        ensures free { free_of self.new ≡ free_of self.old }
    {
        unmark(&mut self.entries, &mut self.listed, &mut self.noted);
    }

    /// One more reference to an entry.
    #[inline(always)]
    pub fn add_ref(&mut self, s: Short)
        requires short { is_short s.0 ≡ true }
        requires within { s.0 < bound_of self.old }
        requires used { is_used (entry_at self.old s.0).state ≡ true }
        requires few { (entry_at self.old s.0).refs < 2 ^ 32 - 1 }
        ensures entry { let e = entry_at self.old s.0 in entry_at self.new ≡ put (entry_at self.old) s.0 (with_refs e (e.refs + 1)) }
        ensures entries { entries_of self.new ≡ entries_of self.old }
        ensures free { free_of self.new ≡ free_of self.old }
    {
        let place = s.index();
        self.entries[place].refs += 1;
    }

    /// One reference less.
    #[inline(always)]
    pub fn drop_ref(&mut self, s: Short)
        requires short { is_short s.0 ≡ true }
        requires within { s.0 < bound_of self.old }
        requires used { is_used (entry_at self.old s.0).state ≡ true }
        requires some { 0 < (entry_at self.old s.0).refs }
        ensures entry { let e = entry_at self.old s.0 in entry_at self.new ≡ put (entry_at self.old) s.0 (with_refs e (e.refs - 1)) }
        ensures entries { entries_of self.new ≡ entries_of self.old }
        ensures free { free_of self.new ≡ free_of self.old }
    {
        let place = s.index();
        self.entries[place].refs -= 1;
    }

    /// Another change of the count of an entry's object.
    #[inline(always)]
    pub fn set_change(&mut self, s: Short, change: i64)
        requires { is_used (entry_at self.old s.0).state ≡ true }
        ensures entry { entry_at self.new ≡ put (entry_at self.old) s.0 (with_change_of (entry_at self.old s.0) change) }
        ensures entries { entries_of self.new ≡ entries_of self.old }
        ensures free { free_of self.new ≡ free_of self.old }
    {
        let place = s.index();
        self.entries[place].change = change;
    }

    /// Says of an entry whether its object differs from its record.
    #[inline(always)]
    pub fn set_changed(&mut self, s: Short, changed: bool)
        requires { is_used (entry_at self.old s.0).state ≡ true }
        ensures entry { entry_at self.new ≡ put (entry_at self.old) s.0 (with_changed (entry_at self.old s.0) changed) }
        ensures entries { entries_of self.new ≡ entries_of self.old }
        ensures free { free_of self.new ≡ free_of self.old }
    {
        let place = s.index();
        self.entries[place].flags.changed = changed;
    }

    /// Says of an entry whether its object was used since it was last looked at.
    #[inline(always)]
    pub fn set_touched(&mut self, s: Short, touched: bool)
        requires { is_used (entry_at self.old s.0).state ≡ true }
        ensures entry { entry_at self.new ≡ put (entry_at self.old) s.0 (with_touched (entry_at self.old s.0) touched) }
        ensures entries { entries_of self.new ≡ entries_of self.old }
        ensures free { free_of self.new ≡ free_of self.old }
    {
        let place = s.index();
        self.entries[place].flags.touched = touched;
    }
}
