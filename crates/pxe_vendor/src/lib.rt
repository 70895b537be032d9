//! PXE clients (PXE 2.1): which machine asks by DHCP for its boot file, and the answer to it.
#![tactic(auto)]

mod address;
mod answer;
mod arch;
mod blank;
mod clients;
mod digits;
mod file;
mod numbers;
mod octets;
mod place;
mod serve;
mod values;

pub use address::{one_mac_text, print_mac, push_mac, read_mac};
pub use answer::{boot_reply, reply};
pub use arch::{Arch, UnknownArch, one_word};
pub use blank::is_blank;
pub use clients::{Client, Kind};
pub use digits::{are_digits, decimal, numeral};
pub use file::{boot_file, loader_file, script_url};
pub use octets::Octets;
pub use place::{Place, PlaceFault};
pub use serve::{NotServed, client, one_client};
