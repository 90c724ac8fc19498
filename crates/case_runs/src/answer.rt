// What a run answers, and where two answers differ.
ghost use Rattle.std.specs.Prelude.{◌↔◌, IsNone};
ghost use Rattle.case_runs.specs.Answer.{Agrees};

use std::alloc::{AllocError, Global};

/// What a run answers.
#[derive(Drop)]
pub struct Answer {
    /// The exit status.
    pub status: u8,
    /// What was put to Notes.
    pub notes: Vec<u8>,
    /// What was put to Transcript.
    pub transcript: Vec<u8>,
    /// The saved image; none where Saved was never attached.
    pub saved: Option<Vec<u8>>,
    /// The picture; none where Display was never attached.
    pub display: Option<Vec<u8>>,
}

/// A part of an answer.
#[derive(Clone, Copy, Debug, PartialEq, Eq)]
pub enum Part {
    Notes,
    Status,
    Transcript,
    Saved,
    Display,
}

/// The first part in which an answer isn't the one that is wanted.
pub fn difference(want: &Answer, got: &Answer) -> Option<Part>
    ensures { IsNone result ↔ Agrees want.now got.now }
{
    if got.notes != want.notes {
        return Some(Part::Notes);
    }
    if got.status != want.status {
        return Some(Part::Status);
    }
    if got.transcript != want.transcript {
        return Some(Part::Transcript);
    }
    if got.saved != want.saved {
        return Some(Part::Saved);
    }
    if got.display != want.display {
        return Some(Part::Display);
    }
    None
}

/// What is said of a part that differs.
pub fn describe(
    alloc: Global,
    part: Part,
    want: &Answer,
    got: &Answer,
) -> Result<String, AllocError> {
    match part {
        Part::Notes => {
            let (want, got) = (text_of(&want.notes), text_of(&got.notes));
            format!(in alloc; "notes {got:?}, not {want:?}")
        }
        Part::Status => {
            let (want, got) = (want.status, got.status);
            format!(in alloc; "status {got}, not {want}")
        }
        Part::Transcript => {
            let at = place(&want.transcript, &got.transcript);
            format!(in alloc; "transcript differs from {at} on")
        }
        Part::Saved => describe_file(alloc, "saved", &want.saved, &got.saved),
        Part::Display => describe_file(alloc, "display", &want.display, &got.display),
    }
}

fn describe_file(
    alloc: Global,
    role: &str,
    want: &Option<Vec<u8>>,
    got: &Option<Vec<u8>>,
) -> Result<String, AllocError> {
    match (want, got) {
        (Some(want), Some(got)) => {
            let at = place(want, got);
            format!(in alloc; "{role} differs from {at} on")
        }
        (Some(_), None) => format!(in alloc; "{role} is missing"),
        (None, _) => format!(in alloc; "{role} isn't wanted"),
    }
}

// The place of the first byte that differs.
fn place(want: &[u8], got: &[u8]) -> usize {
    let shorter = want.len().min(got.len());
    want.iter()
        .zip(got)
        .position(|(want, got)| want != got)
        .unwrap_or(shorter)
}

fn text_of(bytes: &[u8]) -> &str {
    str::from_utf8(bytes).unwrap_or("no text").trim_end()
}
