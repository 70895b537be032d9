//! Option 52, option overload (RFC 2132 section 9.3): which fields hold options after the options field.
ghost use Rattle.std.specs.Prelude.{◌≡◌, Option, Some, List, ℕ};
ghost use Rattle.dhcp_frame.specs.{Area.{value_of, entries_of, IsWhole}, Overload.overload_of, Start.{start_of, start_with}};

use crate::area::OptionIter;
use crate::option_codes::OVERLOAD;

/// Whether the file field and the server name field hold options.
#[derive(Clone, Copy)]
pub(crate) struct Overload {
    pub(crate) file: bool,
    pub(crate) sname: bool,
}

// The joined value of option 52: it has one octet, or it is bad.
#[derive(Clone, Copy)]
enum Start {
    Absent,
    Empty,
    One(u8),
    Long,
}

#[tactic(auto, unfolding(crate::specs::Start::start_with, crate::specs::Start::start_of))]
fn more(start: Start, value: &[u8]) -> Start
    ensures { result ≡ start_with start (Some value.now) }
{
    match (start, value) {
        (Start::Long, _) => Start::Long,
        (Start::One(first), []) => Start::One(first),
        (Start::One(_), _) => Start::Long,
        (_, []) => Start::Empty,
        (_, [first]) => Start::One(*first),
        (_, _) => Start::Long,
    }
}

#[tactic(auto, unfolding(crate::specs::Overload::overload_of, crate::specs::Start::start_of))]
fn overload_from(start: Start) -> Option<Overload>
    ensures { (value : Option (List ℕ)) → start_of value ≡ start → result ≡ overload_of value }
{
    let (file, sname) = match start {
        Start::Absent => (false, false),
        Start::One(1) => (true, false),
        Start::One(2) => (false, true),
        Start::One(3) => (true, true),
        _ => return None,
    };
    Some(Overload { file, sname })
}

#[tactic(auto, using(crate::proofs::OverloadLemmas::overload_steps))]
fn overload_start(options: &[u8]) -> Start
    requires { IsWhole options.now }
    ensures { result ≡ start_of (value_of OVERLOAD (entries_of options.now)) }
{
    let mut start = Start::Absent;
    for (code, value) in OptionIter::new(options, &[], &[]) {
        if code == OVERLOAD {
            start = more(start, value);
        }
    }
    start
}

/// The fields that option 52 of an options field names. `None` means that the option is bad.
pub(crate) fn overload_in(options: &[u8]) -> Option<Overload>
    requires { IsWhole options.now }
    ensures { result ≡ overload_of (value_of OVERLOAD (entries_of options.now)) }
{
    overload_from(overload_start(options))
}
