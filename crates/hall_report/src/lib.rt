//! Reports on a hall as text, the export of its machines, the import of new ones, and the faults of such tasks.
#![tactic(auto)]

mod columns;
mod counts;
mod export;
mod fault;
mod import;
mod machine_lines;
mod member;
mod orders;
mod row;
mod task_fault;
mod values;

pub use counts::hall_text;
pub use export::export_text;
pub use fault::{ImportFault, ReportFault};
pub use import::{bad_row, import_rows};
pub use machine_lines::machine_text;
pub use orders::order_text;
pub use row::ImportRow;
pub use task_fault::Fault;
pub use values::{BadWhat, LogFormat, What, count_of};
