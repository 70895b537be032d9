//! The records of a hall: machines, boots, orders, operators, pools, images, receipts, and the changes
//! to their rows.
#![tactic(auto)]

mod act;
mod address;
mod arch;
mod boot;
mod change;
mod digest;
mod image;
mod interfaces;
mod kinds;
mod laws;
mod machine;
mod machine_uuid;
mod moment;
mod name;
mod number;
mod numbered;
mod operator;
mod order;
mod port;
mod receipt;
mod refusal;
mod request_key;
mod status;
mod text;
mod token;
mod version;

pub use act::Act;
pub use address::{BadMacAddress, MacAddress};
pub use arch::arch_number;
pub use boot::{BadBootCount, Boot, BootCount, MAX_BOOTS};
pub use change::{Change, RowWrite};
pub use digest::Digest;
pub use image::{Image, ImageFault, Live, MAX_ARGS};
pub use interfaces::{own_interfaces, sort_by_machine};
pub use kinds::{
    Erase, OrderKind, OrderStage, Outcome, Progress, Purpose, Role, Stage, UnknownWord,
};
pub use laws::{
    changes_in_turn, machine_goes_alone, new_hall_is_bare, numbers_are_of_one_kind,
    rows_stand_under_their_keys, words_are_of_one_kind, writes_leave_other_rows,
    writes_leave_other_tables,
};
pub use machine::{Interface, MAX_INTERFACES, MAX_MACHINES, Machine};
pub use machine_uuid::MachineUuid;
pub use moment::{BadMoment, MAX_MOMENT, Moment};
pub use name::{BadName, Name};
pub use number::{BadNumber, LastIssued, MAX_NUMBER, Number, Numbers};
pub use numbered::Numbered;
pub use operator::{Member, Operator, Pool};
pub use order::Order;
pub use port::Port;
pub use pxe_vendor::{Arch, Client};
pub use receipt::Receipt;
pub use refusal::Refusal;
pub use request_key::RequestKey;
pub use status::Status;
pub use text::Text;
pub use token::Token;
pub use version::Version;
