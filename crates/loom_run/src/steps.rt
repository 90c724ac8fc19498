//! The steps of a run, for whoever puts a run of another kind together of them. Each says what it did with the roles of its host and why it was refused
//! (`specs/Steps.antt`), and how its run ends then is up to whoever calls it.
pub use crate::machine::wind_up;
pub use crate::program::{Ended, write_kept};
pub use crate::reading::{Read, open_work, read_all, read_image, read_lines};
pub use crate::status::{status_of, status_of_disk, status_of_fault};
pub use crate::writing::{tell, write_display, write_saved};
