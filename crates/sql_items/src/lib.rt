//! The items of a hall's tables, table by table: each read and each write of a row, and machines read whole, with how many there are of
//! each pool and status.
#![tactic(auto)]

mod boots;
mod columns;
mod counts;
mod finding;
mod images;
mod interfaces;
mod listing;
mod lives;
mod machines;
mod numbers;
mod operators;
mod orders;
mod pools;
mod receipts;
mod wipes;
mod words;

pub use boots::{Boots, REMOVE_BOOTS, put_boot};
pub use counts::{count_down, count_up, list_counts};
pub use finding::{find_machine, find_uuid, has_machine_with_image, next_expired};
pub use images::{add_image, find_image, remove_image};
pub use interfaces::{
    FIND_INTERFACES, Interfaces, LIST_INTERFACES, REMOVE_INTERFACES, add_interface,
    remove_interface,
};
pub use listing::list_machines;
pub use lives::{Lives, is_live, put_live};
pub use machines::{add_machine, remove_row, set_machine};
pub use numbers::{find_numbers, set_numbers};
pub use operators::{FIND_DIGEST, Operators, put_operator};
pub use orders::{LIST_WAITING_ORDERS, Orders, REMOVE_ORDERS, put_order};
pub use pools::{Members, Pools, add_member, add_pool};
pub use receipts::{Receipts, add_receipt};
pub use wipes::{Erasing, Wipes, find_wipe, list_wipes, put_wipe};
