//! Option areas (RFC 2132 section 2), and the options in them.
ghost use Rattle.std.specs.Prelude.{◌≡◌, ◌≢◌, ◌∷◌, ◌++◌, List, ℕ, Some, ◌↔◌, None, MatchBool};
ghost use Rattle.dhcp_frame.specs.{Area.{Entry, Reads, reading, entries_of, IsWhole, AreWhole}, Front.BeginsWith};

use crate::option_codes::{END, PAD};
use std::marker::Model;

/// The law of option areas: `reading` finds the options of each area that isn't cut, and an area holds
/// at most one list of options.
pub fn one_reading()
    ensures exact { (octets : List ℕ) (es : List Entry) → Reads octets es ↔ (reading octets ≡ Some es) }
    ensures one { (octets : List ℕ) (es others : List Entry) → Reads octets es → Reads octets others → es ≡ others }
{}

// What an area begins with, after its padding.
#[derive(Drop)]
enum Front<'a> {
    // An option's code, its value, and the octets after it.
    Item(u8, &'a [u8], &'a [u8]),
    End,
    // An option that lacks its length octet, or whose length is more than the area has left.
    Cut,
}

#[tactic(auto, using(crate::proofs::AreaLemmas::area_steps))]
fn first_of(area: &[u8]) -> Front<'_>
    ensures { BeginsWith area.now result }
{
    let mut here = area;
    loop {
        let Some((code, rest)) = here.split_first() else {
            return Front::End;
        };
        match *code {
            PAD => here = rest,
            END => return Front::End,
            code => return option_front(code, rest),
        }
    }
}

// An option with this code: its length octet and its value come next.
#[tactic(auto, using(crate::proofs::AreaLemmas::area_steps))]
fn option_front(code: u8, octets: &[u8]) -> Front<'_>
    requires padding { code ≢ PAD }
    requires end { code ≢ END }
    ensures { BeginsWith (code ∷ octets.now) result }
{
    let Some((len, rest)) = octets.split_first() else {
        return Front::Cut;
    };
    let len = usize::from(*len);
    if rest.len() < len {
        return Front::Cut;
    }
    let (value, rest) = rest.split_at(len);
    Front::Item(code, value, rest)
}

/// Whether an option area is whole: no option in it is cut.
pub(crate) fn is_whole(area: &[u8]) -> bool
    ensures { MatchBool result (IsWhole area.now) (reading area.now ≡ None) }
{
    let mut here = area;
    loop {
        match first_of(here) {
            Front::Item(_, _, rest) => here = rest,
            Front::End => return true,
            Front::Cut => return false,
        }
    }
}

/// Options in order, each with its code and its value, without padding and end octets. A value is
/// borrowed from the octets that were read, so it takes no memory.
#[derive(Drop)]
pub struct OptionIter<'a> {
    first: &'a [u8],
    second: &'a [u8],
    third: &'a [u8],
}

impl<'a> Model for OptionIter<'a> {
    ghost use Rattle.std.specs.Prelude.{List, ◌++◌};
    ghost use Rattle.dhcp_frame.specs.Area.{Entry, entries_of, AreWhole};

    ghost Value = { List Entry };

    ghost view = { λ it. entries_of it.first.now ++ entries_of it.second.now ++ entries_of it.third.now };

    ghost invariant = { λ it. AreWhole it.first.now it.second.now it.third.now };
}

impl<'a> OptionIter<'a> {
    /// The options of one option area, such as the value of option 43 (RFC 2132 section 8.4). `None`
    /// means that an option in it is cut.
    #[tactic(auto, using(crate::proofs::AreaLemmas::whole_steps))]
    pub fn over(area: &'a [u8]) -> Option<OptionIter<'a>>
        ensures { result ≡ reading area.now }
    {
        if is_whole(area) {
            Some(OptionIter::new(area, &[], &[]))
        } else {
            None
        }
    }

    pub(crate) fn new(first: &'a [u8], second: &'a [u8], third: &'a [u8]) -> OptionIter<'a>
        requires { AreWhole first.now second.now third.now }
        ensures { result ≡ entries_of first.now ++ entries_of second.now ++ entries_of third.now }
    {
        OptionIter {
            first,
            second,
            third,
        }
    }
}

impl<'a> Iterator for OptionIter<'a> {
    ghost use Rattle.std.specs.Iterator.{YieldsFirstBy, item_count};

    type Item = (u8, &'a [u8]);

    ghost next_gives = { YieldsFirstBy (λ item. (item.0, item.1.now)) (λ left. left) };

    ghost remaining = { item_count (λ left. left) };

    fn next(&mut self) -> Option<(u8, &'a [u8])> {
        if let Front::Item(code, value, rest) = first_of(self.first) {
            self.first = rest;
            return Some((code, value));
        }
        if let Front::Item(code, value, rest) = first_of(self.second) {
            self.second = rest;
            return Some((code, value));
        }
        if let Front::Item(code, value, rest) = first_of(self.third) {
            self.third = rest;
            return Some((code, value));
        }
        None
    }
}
