// The kernel: the source files that stand before those of a program.
ghost use Rattle.std.specs.Prelude.{◌≡◌, string_bytes, IfOk, IfSome};

use st80_files::folder_of;
use std::alloc::AllocError;
use std::env;
use std::rt::Files;

/// The files of the kernel, in order.
pub(crate) const KERNEL: [&str; 6] = [
    "object.st",
    "boolean.st",
    "number.st",
    "collection.st",
    "process.st",
    "graphics.st",
];

fn is_folder(rt: HostRuntime, path: &str) -> bool {
    match rt.metadata(path) {
        Ok(metadata) => metadata.is_dir(),
        Err(_) => false,
    }
}

/// The folder `kernel` beside the program, where it is there.
fn beside(rt: HostRuntime) -> Result<Option<String>, AllocError> {
    let Ok(program) = env::current_exe(&rt) else {
        return Ok(None);
    };
    let folder = folder_of(program.as_str());
    let kernel = format!(in rt.alloc(); "{folder}/kernel")?;
    if is_folder(rt, kernel.as_str()) {
        Ok(Some(kernel))
    } else {
        Ok(None)
    }
}

/// The folder of the kernel: the one that is named, that beside the program, or that of this name here.
pub(crate) fn kernel_folder(rt: HostRuntime, named: Option<&str>) -> Result<String, AllocError>
    ensures { IfOk result (λ folder. IfSome named.entry (λ name. string_bytes folder ≡ name.now)) }
{
    if let Some(folder) = named {
        return String::from_str(rt.alloc(), folder);
    }
    match beside(rt)? {
        Some(folder) => Ok(folder),
        None => String::from_str(rt.alloc(), "kernel"),
    }
}
