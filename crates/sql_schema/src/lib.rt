//! The tables of a hall in SQLite: what a SQL statement does to a table, over any schema, in the words of the kit's `sqlite`; the texts
//! that make the tables of a hall and look at them; which rows spell a hall; and reads and writes of rows, proved once over any table.
//! The definitions, the relation between tables and halls and the laws of reading and writing it are in `specs/`.
#![tactic(auto)]

pub mod creating;
mod kinds;
mod probe;
mod reading;
mod table;
mod values;
mod writing;

pub use kinds::kind_in;
pub use probe::is_running;
pub use reading::{ask_all, ask_first, ask_one};
pub use table::Table;
pub use values::{
    name_in, name_value, number_in, number_value, octets_in, octets_value, small_in, small_value,
    text_value, truth_in, truth_value,
};
pub use writing::{put, write};
