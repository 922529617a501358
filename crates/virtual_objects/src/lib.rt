//! Objects, their blocks, and the parts of a job.
//!
//! An object is a name and some rows. Its blocks count from 0 and fill the data units of its rows, row by row.
#![tactic(auto)]

mod marks;
mod parts;
mod table;

pub use parts::{RowParts, units_are_placed};
pub use raid_base::{Name, NoMemory, PartsFault, RowNo, RowPart};
pub use table::{MAX_OBJECTS, Object, ObjectFault, Objects};
