// The paragraph of a case: lines that begin with a word, and then have its value.
use anyhow::{Result, bail};

/// The words that lines begin with. `#` begins a comment.
const WORDS: [&str; 20] = [
    "case",
    "#",
    "image",
    "patch",
    "cut",
    "append",
    "repeat",
    "rising",
    "event",
    "events",
    "core",
    "entries",
    "room",
    "steps",
    "status",
    "notes",
    "or",
    "transcript",
    "saved",
    "display",
];

/// The lines of a case.
#[derive(Clone, Copy)]
pub struct Paragraph<'a> {
    text: &'a str,
}

// Whether a line may begin with this word.
fn is_known(word: &str) -> bool {
    WORDS.contains(&word)
}

/// The word and the value of a line.
pub fn parts_of(line: &str) -> (&str, &str) {
    line.split_once(' ').unwrap_or((line, ""))
}

impl<'a> Paragraph<'a> {
    /// The paragraph of this text. It is refused where a line begins with an unknown word.
    pub fn new(text: &'a str) -> Result<Paragraph<'a>> {
        for line in text.lines() {
            let (word, _) = parts_of(line);
            if !is_known(word) {
                bail!("unknown word {word}");
            }
        }
        Ok(Paragraph { text })
    }

    /// Its text.
    pub fn text(&self) -> &'a str {
        self.text
    }

    /// The value of a word, if a line begins with it. It is refused where two lines do.
    pub fn value(&self, word: &str) -> Result<Option<&'a str>> {
        let mut found = None;
        for line in self.text.lines() {
            let (head, value) = parts_of(line);
            if head == word {
                if found.is_some() {
                    bail!("{word} twice");
                }
                found = Some(value);
            }
        }
        Ok(found)
    }

    /// The value of a word that has to be there.
    pub fn needed(&self, word: &str) -> Result<&'a str> {
        match self.value(word)? {
            Some(value) => Ok(value),
            None => bail!("no {word}"),
        }
    }
}
