// A line of an event file, without its end.
ghost use Rattle.std.specs.Prelude.{◌≡◌, ◌≢◌, ◌↔◌, ◌≤◌, ℕ, IsTrue, IfSome, None, decimal};
ghost use Rattle.blue_model.specs.declared.event.Event.{Event as Comes};
ghost use Rattle.blue_model.specs.declared.event.Line.{Line as Row};
ghost use Rattle.event_file.specs.Text.{IsEvent, IsLine, event_text, line_body};

use crate::limits::{MOST_COUNT, MOST_WORD};
use crate::{Event, Line};
use itoa::Buffer;
use std::str;

/// Whether a text is this number in plain decimal.
fn is_decimal(text: &str, number: u32) -> bool
    ensures { IsTrue result ↔ (text.now ≡ decimal number) }
{
    let mut buffer = Buffer::new();
    buffer.format(number) == text
}

/// The number up to a greatest one that a text is in plain decimal.
fn number_in(text: &str, most: u32) -> Option<u32>
    ensures some { IfSome result (λ n. (n ≤ most) × (text.now ≡ decimal n)) }
    ensures none { result ≡ None → (n : ℕ) → n ≤ most → text.now ≢ decimal n }
{
    let Ok(number) = text.parse::<u32>() else {
        return None;
    };
    if number <= most && is_decimal(text, number) {
        Some(number)
    } else {
        None
    }
}

/// The word that a text names.
fn word_in(text: &str) -> Option<Event>
    ensures some { IfSome result (λ e. IsEvent e × (text.now ≡ event_text e)) }
    ensures none { result ≡ None → (n : ℕ) → n ≤ MOST_WORD → text.now ≢ event_text (Comes.Word n) }
{
    let (kind, number) = text.split_once(' ')?;
    if kind != "word" {
        return None;
    }
    let word = number_in(number, MOST_WORD)?;
    Some(Event::Word(word as u16))
}

/// The event that a text is.
fn event_in(text: &str) -> Option<Event>
    ensures some { IfSome result (λ e. IsEvent e × (text.now ≡ event_text e)) }
    ensures none { result ≡ None → (e : Comes) → IsEvent e → text.now ≢ event_text e }
{
    if text == "purge" {
        Some(Event::Purge)
    } else if text == "compact" {
        Some(Event::Compact)
    } else {
        word_in(text)
    }
}

/// The line that a text is.
fn line_in(text: &str) -> Option<Line>
    ensures some { IfSome result (λ l. IsLine l × (text.now ≡ line_body l)) }
    ensures none { result ≡ None → (l : Row) → IsLine l → text.now ≢ line_body l }
{
    let (count, event) = text.split_once(' ')?;
    let count = number_in(count, MOST_COUNT)?;
    let event = event_in(event)?;
    Some(Line { count, event })
}

/// The line that these bytes are, without its end.
pub(crate) fn decode_line(bytes: &[u8]) -> Option<Line>
    ensures some { IfSome result (λ l. IsLine l × (bytes.now ≡ line_body l)) }
    ensures none { result ≡ None → (l : Row) → IsLine l → bytes.now ≢ line_body l }
{
    let Ok(text) = str::from_utf8(bytes) else {
        return None;
    };
    line_in(text)
}
