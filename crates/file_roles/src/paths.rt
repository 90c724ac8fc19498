// Where the file of a name lies.
ghost use Rattle.std.specs.Prelude.{◌≡◌, IsTrue};

use file_system::{Kind, Refusal, System};
use std::alloc::{AllocError, Global};
use std::path::PathBuf;

// How many links are followed at most, as by the system.
const MOST_LINKS: u32 = 40;

// The path that a link at this one stands for.
fn behind(alloc: Global, path: &str, target: &str) -> Result<String, AllocError> {
    let mut at = PathBuf::from_str(alloc, path)?;
    at.pop();
    at.push(target)?;
    String::from_str(alloc, at.as_path().as_str())
}

// The path behind the link that stands here, where one does.
fn one_step<S: System>(system: &mut S, alloc: Global, path: &str) -> Result<Option<String>, Refusal>
    ensures { IsTrue S.tells → S.moments system.new ≡ S.moments system.old }
{
    match system.look(path, false) {
        Ok(found) => {
            if found.kind != Kind::Link {
                return Ok(None);
            }
        }
        Err(Refusal::Missing) => return Ok(None),
        Err(refusal) => return Err(refusal),
    }
    let target = system.read_link(alloc, path)?;
    match behind(alloc, path, target.as_str()) {
        Ok(next) => Ok(Some(next)),
        Err(_) => Err(Refusal::Failed),
    }
}

/// The path of the file that has this name, or would have it: where the name is a link, what that stands for.
pub fn followed<S: System>(system: &mut S, alloc: Global, name: &str) -> Result<String, Refusal>
    ensures { IsTrue S.tells → S.moments system.new ≡ S.moments system.old }
{
    let Ok(mut path) = String::from_str(alloc, name) else {
        return Err(Refusal::Failed);
    };
    let mut left = MOST_LINKS;
    while left > 0 {
        match one_step(system, alloc, path.as_str())? {
            Some(next) => path = next,
            None => return Ok(path),
        }
        left -= 1;
    }
    Err(Refusal::Failed)
}
