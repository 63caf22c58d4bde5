//! The spelling of a row, as a frame of the journal holds it.
//!
//! What it is for: `spell` writes a row of any deed, `read` gives it back.
//!
//! What it promises: each row has one spelling, and `read` gives a row exactly where the bytes are the spelling of a well-formed
//! row. Where they are not, the fault names the offset of the first field that cannot be read, or of the first excess byte
//! (`fault_of`, `specs/RowReader.antt`). `spell_at` spells a publish with its large outputs in extents of the file of objects,
//! and `plain_row` gives the row of the base for such a row. Reading takes time linear in the bytes, and a list takes memory as
//! its members are read, never by a count that the bytes left cannot hold.
//!
//! What it stands on: cc_names, which has the row itself; it is re-exported here.
#![tactic(auto)]

mod cursor;
mod deed_fields;
mod deeds;
mod extents;
mod fields;
mod lists;
mod reading;
mod writing;

pub use cc_names::rows::{Deed, Extent, Kind, Out, Placed, ReadOf, Row, Stored, Tag, TypeKind};
pub use cursor::NotARow;
pub use extents::{is_large, plain_row, spell_at};
pub use reading::{read, rows_have_one_spelling};
pub use writing::spell;
