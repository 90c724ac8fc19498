// An event list: its lines, and its words in order.
ghost use Rattle.std.specs.Prelude.{◌≡◌, ◌<◌, ◌≤◌, ◌++◌, [], ◌∷◌, length, OnOk, OnErr, slice_get, Some};
ghost use Rattle.blue_model.specs.Devices.{input_words, words_before};

use crate::limits::MOST_LINES;
use crate::{Event, Line};
use std::alloc::{AllocError, Global};
use std::marker::Model;

/// The lines of an event list.
#[derive(Debug, Drop)]
pub struct EventList {
    lines: Vec<Line>,
    // the words of the lines, so that each is found at once
    words: Vec<u16>,
}

impl Model for EventList {
    ghost use Rattle.std.specs.Prelude.{List};
    ghost use Rattle.blue_model.specs.declared.event.Line.{Line};
    ghost use Rattle.event_file.specs.Inside.{IsList};

    ghost Value = { List Line };

    ghost view = { λ a. a.lines.items };

    ghost invariant = { λ a. IsList a.lines.items a.words.items };
}

/// Appends the word of an event, where it has one. Without memory the words are as before.
fn push_word(words: &mut Vec<u16>, event: Event) -> Result<(), AllocError>
    ensures ok { OnOk result (words.new.items ≡ words.old.items ++ words_before event []) }
    ensures err { OnErr result (words.new.items ≡ words.old.items) }
{
    if let Event::Word(word) = event {
        words.push(word)?;
    }
    Ok(())
}

impl EventList {
    /// The empty list. It takes no memory.
    pub fn new(alloc: Global) -> EventList
        ensures { result ≡ [] }
    {
        EventList {
            lines: Vec::new(alloc),
            words: Vec::new(alloc),
        }
    }

    /// Appends a line. Without memory the list is as before.
    pub fn push(&mut self, line: Line) -> Result<(), AllocError>
        requires { length self.old < MOST_LINES }
        ensures ok { OnOk result (self.new ≡ self.old ++ line ∷ []) }
        ensures err { OnErr result (self.new ≡ self.old) }
    {
        let count = self.words.len();
        push_word(&mut self.words, line.event)?;
        if self.lines.push(line).is_err() {
            self.words.truncate(count);
            return Err(AllocError);
        }
        Ok(())
    }

    /// The number of lines.
    #[inline(always)]
    pub fn len(&self) -> usize
        ensures value { result ≡ length self.now }
        ensures few { result ≤ MOST_LINES }
    {
        self.lines.len()
    }

    pub fn item(&self, i: usize) -> &Line
        requires { i < length self.now }
        ensures { slice_get self.now i ≡ Some result.now }
    {
        &self.lines[i]
    }

    /// The word that joins the input queue as this one, counted from 0.
    pub fn word(&self, i: usize) -> Option<u16>
        ensures { result ≡ slice_get (input_words self.now) i }
    {
        self.words.get(i).copied()
    }
}
