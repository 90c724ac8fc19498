// Where the files of a run are, by the words that ask for them.
ghost use Rattle.std.specs.Prelude.{◌≡◌, IfOk, string_bytes};
ghost use Rattle.st80.specs.Paths.{AreFiles, IsDisplay, IsEvents, IsImage, IsReadBy, IsSaved, IsWork, IsWrittenBy, files_at, first_word};
ghost use Rattle.st80_files.specs.Inside.{folder_at};
ghost use Rattle.st80_words.specs.Rows.{null_text};

use crate::rows::Source;
use st80_files::{Code, Failure, STREAM, Temporary, copy_in, copy_pipe, failed, is_pipe};
use st80_looks::Drawing;
use st80_words::{Running, Saving, Unused, null_path};

/// The files of a run, by their paths.
#[derive(Drop)]
pub struct Paths {
    pub image: String,
    pub events: String,
    pub work: String,
    pub saved: String,
    pub display: String,
}

/// A file that is read: standard input, or another pipe, is copied first.
pub fn read_path(
    rt: HostRuntime,
    room: &Temporary,
    word: &str,
    name: &str,
) -> Result<String, Failure>
    ensures { IfOk result (λ path. IsReadBy (folder_at room.now) name.now word.now (string_bytes path)) }
{
    let is_stream = word == STREAM;
    if !is_stream && !is_pipe(rt, word) {
        return Ok(String::from_str(rt.alloc(), word)?);
    }
    let path = room.file(rt, name)?;
    if is_stream {
        copy_in(rt, path.as_str())?;
    } else {
        copy_pipe(rt, word, path.as_str())?;
    }
    Ok(path)
}

/// A file that is written: what goes to standard output is written in the temporary folder first.
pub fn written_path(
    rt: HostRuntime,
    room: &Temporary,
    word: &str,
    name: &str,
) -> Result<String, Failure>
    ensures { IfOk result (λ path. IsWrittenBy (folder_at room.now) name.now word.now (string_bytes path)) }
{
    if word == STREAM {
        return Ok(room.file(rt, name)?);
    }
    Ok(String::from_str(rt.alloc(), word)?)
}

// The spelling of the null device for a role that has no file.
fn unused(rt: HostRuntime, role: Unused) -> Result<String, Failure>
    ensures { IfOk result (λ path. string_bytes path ≡ null_text role) }
{
    Ok(String::from_str(rt.alloc(), null_path(role))?)
}

// Where the image goes that the run leaves. `source` is the word that the image comes from, or the vault.
fn saved_path(
    rt: HostRuntime,
    room: &Temporary,
    saving: Saving<'_>,
    source: &str,
) -> Result<String, Failure>
    ensures { IfOk result (λ path. IsSaved (folder_at room.now) saving.entry source.now (string_bytes path)) }
{
    let alloc = rt.alloc();
    match saving {
        Saving::Nowhere => unused(rt, Unused::Saved),
        Saving::Beside if source == STREAM => unused(rt, Unused::Saved),
        Saving::Beside => Ok(format!(in alloc; "{source}.saved")?),
        Saving::Over if source == STREAM => Err(failed(
            alloc,
            Code::Words,
            "--in-place can't write over standard input; give --save FILE",
        )),
        Saving::Over => Ok(String::from_str(alloc, source)?),
        Saving::To(word) => written_path(rt, room, word, "saved"),
    }
}

/// The word that the image comes from, or the vault.
pub fn source_word<'a>(source: Source<'a>) -> &'a str
    ensures { result.now ≡ first_word source.entry }
{
    match source {
        Source::Image(image) | Source::Guarded(image, _) => image,
        Source::Kept(vault) => vault,
    }
}

// What a vault keeps has no image but the one in it.
fn image_path(rt: HostRuntime, room: &Temporary, source: Source<'_>) -> Result<String, Failure>
    ensures { IfOk result (λ path. IsImage (folder_at room.now) source.entry (string_bytes path)) }
{
    match source {
        Source::Kept(_) => Ok(String::new(rt.alloc())),
        Source::Image(image) | Source::Guarded(image, _) => read_path(rt, room, image, "image"),
    }
}

/// The events, or the null device where there are none.
pub fn events_path(
    rt: HostRuntime,
    room: &Temporary,
    events: Option<&str>,
) -> Result<String, Failure>
    ensures { IfOk result (λ path. IsEvents (folder_at room.now) events.entry (string_bytes path)) }
{
    match events {
        Some(word) => read_path(rt, room, word, "events"),
        None => unused(rt, Unused::Events),
    }
}

fn work_path(rt: HostRuntime, room: &Temporary, work: Option<&str>) -> Result<String, Failure>
    ensures { IfOk result (λ path. IsWork (folder_at room.now) work.entry (string_bytes path)) }
{
    match work {
        Some(word) => Ok(String::from_str(rt.alloc(), word)?),
        None => Ok(room.file(rt, "work")?),
    }
}

fn display_path(rt: HostRuntime, room: &Temporary, drawing: Drawing<'_>) -> Result<String, Failure>
    ensures { IfOk result (λ path. IsDisplay (folder_at room.now) drawing.entry (string_bytes path)) }
{
    match drawing {
        Drawing::Nowhere => unused(rt, Unused::Display),
        Drawing::Pbm(file) => Ok(String::from_str(rt.alloc(), file)?),
        _ => Ok(room.file(rt, "picture")?),
    }
}

/// The files of a run, each by what asks for it.
pub fn paths_of(
    rt: HostRuntime,
    room: &Temporary,
    source: Source<'_>,
    running: &Running<'_>,
    drawing: Drawing<'_>,
) -> Result<Paths, Failure>
    ensures { IfOk result (λ paths. AreFiles (folder_at room.now) source.entry running.now drawing.entry (files_at paths)) }
{
    let image = image_path(rt, room, source)?;
    let events = events_path(rt, room, running.events)?;
    let work = work_path(rt, room, running.work)?;
    let saved = saved_path(rt, room, running.saving, source_word(source))?;
    let display = display_path(rt, room, drawing)?;
    Ok(Paths {
        image,
        events,
        work,
        saved,
        display,
    })
}
