//! What cases do with a hall, over any store, and with the tables of a file. An act on a hall is
//!
//! - an arrival, as play_log parses it: what the desk answers is printed;
//! - `read WHAT ..` prints what a read of the store finds, as `reads.rt` says; `look KEY NAME ..` prints all that is there
//!   under these names and this key, as `looking.rt` says; `watch KEY NAME ..` says what is looked at, and `look` alone prints which lines of that
//!   went, with `-` before them, and which came, with `+`, since the look before;
//! - `apply ROW; ROW; ..` makes a change that no desk makes, as `changes.rt` says: `applied` or `refused`;
//! - `log ARRIVAL`, `log_object ARRIVAL` and `log_unlisted ARRIVAL` answer an arrival and print what a log says of it, the last one at a desk that
//!   enlists no client;
//! - `hall`, `machine-text ID`, `order-text` and `export` print reports;
//! - `import MOMENT DIGEST TEXT` imports a file, with `\n` for each line feed, and prints what is printed for its rows; `rows TEXT` prints the
//!   rows that are parsed;
//! - `adopt MOMENT OWNER POWER ADMIN IMAGE MACHINE ..` adopts running servers, by three digests of tokens, `-` for no admin's, and prints
//!   what is printed for them;
//! - `serve REQUEST` answers a request from a reader to a writer; `short ROOM ACT` an import or a request with a writer that takes so many
//!   octets and then fails; `full ROOM REQUEST` a request with one that takes so many and then none; `slow STEP CALL REQUEST` a request from a reader that gives so many octets a read at most, and fails at that
//!   read, the first being 1, or at none where CALL is `-`. The fault's name is printed where one of them failed;
//! - `reads_fail REQUEST` answers a request from a reader of one octet a read that fails at its first read, at its second and so on, up to that
//!   of the last octet, and prints how many failed; `writes_fail REQUEST` to a writer that fails before the first octet, after it and so
//!   on, until it takes all: how many failed, and then the answer;
//! - `group ARRIVAL && ARRIVAL ..` answers arrivals by one commit of the store, those that wait by another one and so on, and prints each
//!   answer; `together ARRIVAL && ARRIVAL ..` by one commit alone, and prints `waits` for each that isn't answered by it. Where arrivals
//!   aren't played alone, they are answered by the cache that a service has over its store;
//! - `cuts ARRIVAL` answers the first octets of an arrival, none, one, two and so on, but never all: prints each answer that isn't that before
//!   it, after the number of octets;
//! - `failing CALL ACT` plays an act over the store that fails at one of its calls, the first being 1; `each ACT` over the store that fails at its
//!   first call, then at its second and so on, until it isn't refused, and prints at how many calls it was.
//!
//! Where the store can't answer, `unavailable` is printed. An act on the tables of a file is
//!
//! - `sql STATEMENT` carries a statement out: `done` or `refused`; `query STATEMENT` prints the number in the first column of the first row;
//! - `create ADMIN DIGEST` makes the tables of a hall: `created`; `open` looks at the tables: `opened`; `migrate` carries them over to the second
//!   schema: `migrated`, or `already`; each of them or the number and the name of the fault;
//! - any other act is one on the hall of the file, which is opened for it.
//!
//! Files stand on disks in memory, which may stop; memory may end.
#![tactic(auto)]

mod acts;
mod adoptions;
mod arrivals;
mod asked;
mod budgets;
mod changes;
mod disks;
mod ends;
mod groups;
mod hall;
mod looking;
mod readings;
mod reads;
mod records;
mod reports;
mod steps;
mod stops;
mod tables;

pub use asked::Asked;
pub use budgets::play_in_budgets;
pub use changes::change;
pub use disks::{Fresh, Image, Made, Which};
pub use hall::{Hall, Looked, Way, is_refused};
pub use readings::answer_again;
pub use stops::{Run, Seen, Stopped};
pub use tables::Tables;
