//! Serving one request over a reader and a writer.
ghost use Rattle.std.specs.{Prelude.{◌≡◌, ◌<◌, ◌≤◌, ◌+◌, ◌⊎◌, ℕ, List, true, false, length, take, drop, IfNone, IfSome}, Io.KnownBytes.Appends};
ghost use Rattle.hall_desk.specs.{Prelude.{calls_of, failed_of, inner_of, takes_of}, Attempt.IsAnswered, Desk.{enlists_of, site_of, store_of}, Headline.{HasHistory, HasServed, HasSomeRequest}, History.{Item, Origin}, Octets.octets_of, Served.{IfAnswered, IfReadFailed, IfWriteFailed, IsReadByNeed, IsReadInTime, IsSent, IsServed, IsWritten}, Stops.{IsLeft, IsSettled, OrSomeRequest, SettlesBySome, StaysSettled}};
ghost use Rattle.hall_desk.specs.declared.arrival.Input.TheVariants as input;
ghost use Rattle.hall_desk.specs.declared.serving.Served.TheVariants as served;

use crate::arrival::{Answer, Arrival, Input};
use crate::desk::Desk;
use crate::laws::histories_keep_the_laws;
use crate::reading::{Reading, read_request};
use hall_http::Noted;
use hall_store::HallStore;
use hall_types::{Moment, Token};
use std::alloc::Global;
use std::io::{Read, Write};

/// How the serving of a request ended.
#[derive(Clone, Copy, PartialEq, Eq)]
pub enum Served {
    /// The whole answer was written.
    Answered,
    /// A read failed, or 4,096 reads didn't decide the request: nothing was changed or written.
    ReadFailed,
    /// A write failed after so many octets of the answer; what the request changed is kept.
    WriteFailed { after: u64 },
}

// The octets from a place on.
fn octets_from(octets: &[u8], at: usize) -> &[u8]
    requires { at ≤ length octets.now }
    ensures value { result.now ≡ drop at octets.now }
    ensures len { length result.now + at ≡ length octets.now }
{
    octets.split_at(at).1
}

// Writes the octets, and says how many went out.
fn write_octets<W: Write>(writer: &mut Noted<W>, octets: &[u8]) -> usize
    requires { failed_of writer.old ≡ false }
    ensures within { result ≤ length octets.now }
    ensures bytes { Appends (W.contents (inner_of writer.old)) (W.contents (inner_of writer.new)) (take result octets.now) }
    ensures fails { result < length octets.now → failed_of writer.new ≡ true }
{
    let mut at = 0;
    while at < octets.len() {
        match writer.put(octets_from(octets, at)) {
            Some(count) => at += count,
            None => return at,
        }
    }
    at
}

// Writes an answer.
fn send<W: Write>(writer: &mut Noted<W>, octets: &[u8]) -> Served
    requires { failed_of writer.old ≡ false }
    ensures sent { IfSome (W.contents (inner_of writer.old)) (λ before. IsSent octets.now before result (W.contents (inner_of writer.new))) }
    ensures written { IsWritten result }
    ensures fails { IfWriteFailed result (failed_of writer.new) }
{
    let count = write_octets(writer, octets);
    if count < octets.len() {
        Served::WriteFailed {
            after: count as u64,
        }
    } else {
        Served::Answered
    }
}

impl<S: HallStore> Desk<S> {
    // Reads a request and answers it, unless the reads failed.
    fn take_request<R: Read>(
        &mut self,
        alloc: Global,
        reader: &mut Noted<R>,
        moment: Moment,
        fresh: Token,
    ) -> Option<Answer>
        requires takes { takes_of reader.old ≡ 0 }
        requires read { failed_of reader.old ≡ false }
        ensures clean { S.HallStore.is_clean (store_of self.new) → S.HallStore.is_clean (store_of self.old) }
        ensures site { site_of self.new ≡ site_of self.old }
        ensures enlists { enlists_of self.new ≡ enlists_of self.old }
        ensures step { S.HallStore.is_clean (store_of self.new) → IfSome result (λ answer. IfSome (R.remaining (inner_of reader.old)) (λ octets.
            IsAnswered S.HallStore (store_of self.old) (store_of self.new) (site_of self.old) (input.Request octets) moment fresh answer)) }
        ensures some { S.HallStore.is_clean (store_of self.new) → IfSome result (λ answer. (octets : List ℕ)
            × IsAnswered S.HallStore (store_of self.old) (store_of self.new) (site_of self.old) (input.Request octets) moment fresh answer) }
        ensures same { IfNone result (self.new ≡ self.old) }
        ensures fails { IfNone result ((failed_of reader.new ≡ true) ⊎ (takes_of reader.new ≡ 4096)) }
        ensures in_time { IsReadInTime (R.remaining (inner_of reader.old)) (R.remaining (inner_of reader.new)) }
        ensures by_need { calls_of reader.old ≡ 0 → IsReadByNeed (R.remaining (inner_of reader.old)) (R.remaining (inner_of reader.new)) (calls_of reader.new) (takes_of reader.new) }
        ensures takes { takes_of reader.new ≤ 4096 }
        ensures unfailed { IfSome result (λ _. failed_of reader.new ≡ false) }
    {
        match read_request(alloc, reader) {
            Reading::Failed => None,
            Reading::NoMemory => Some(Answer::Unavailable),
            Reading::Whole(request) => {
                let arrival = Arrival {
                    moment,
                    fresh,
                    input: Input::Request(request),
                };
                Some(self.answer(alloc, &arrival))
            }
        }
    }

    /// Reads one request, until it is decided or the input ends, and answers it; both the reader and the writer are to be
    /// new. What the request changes is kept before the first octet is written. However the octets come cut, the answer
    /// is that to all of them. With all that came to the hall since it was new, it is a history that keeps all laws; a request whose
    /// reads failed is no part of it. A settled store is settled again, unless the answer is Unavailable: then the hall is as it was. A
    /// reader and a writer that don't tell what they gave and took promise less (`goes_on`, `goes_on_settled`, `stop`): that some request
    /// came, or none, also where the desk stops. At most 4,096 reads are made, of at most 512 octets each, and none once the request is
    /// decided (`by_need`, `in_time`), so that a client which has sent it can wait for its answer.
    pub fn serve_one<R: Read, W: Write>(
        &mut self,
        alloc: Global,
        reader: &mut Noted<R>,
        writer: &mut Noted<W>,
        moment: Moment,
        fresh: Token,
    ) -> Served
        requires takes { takes_of reader.old ≡ 0 }
        requires read { failed_of reader.old ≡ false }
        requires written { failed_of writer.old ≡ false }
        ensures clean { S.HallStore.is_clean (store_of self.new) → S.HallStore.is_clean (store_of self.old) }
        ensures site { site_of self.new ≡ site_of self.old }
        ensures enlists { enlists_of self.new ≡ enlists_of self.old }
        ensures served { S.HallStore.is_clean (store_of self.new) → IfSome (R.remaining (inner_of reader.old)) (λ octets. IfSome (W.contents (inner_of writer.old)) (λ before.
            IsServed S.HallStore (store_of self.old) (store_of self.new) (site_of self.old) moment fresh octets before result (W.contents (inner_of writer.new)))) }
        ensures history { S.HallStore.is_clean (store_of self.new) → IfSome (R.remaining (inner_of reader.old)) (λ octets. IfSome (W.contents (inner_of writer.old)) (λ before.
            (origin : Origin) (past : List Item) → HasHistory S.HallStore (store_of self.old) origin past
            → HasServed S.HallStore (store_of self.new) origin past (site_of self.old) octets moment fresh before result (W.contents (inner_of writer.new)))) }
        ensures goes_on { S.HallStore.is_clean (store_of self.new) → (origin : Origin) (past : List Item) → HasHistory S.HallStore (store_of self.old) origin past
            → HasSomeRequest S.HallStore (store_of self.new) origin past (site_of self.old) moment fresh }
        ensures stop { S.HallStore.is_clean (store_of self.new) → (origin : Origin) (past : List Item) → IsSettled S.HallStore (store_of self.old) origin past
            → IsLeft S.HallStore (store_of self.new) origin (OrSomeRequest past (site_of self.old) moment fresh) }
        ensures settled { S.HallStore.is_clean (store_of self.new) → IfSome (R.remaining (inner_of reader.old)) (λ octets. IfSome (W.contents (inner_of writer.old)) (λ before.
            (origin : Origin) (past : List Item) → IsSettled S.HallStore (store_of self.old) origin past
            → StaysSettled S.HallStore (store_of self.new) origin past (site_of self.old) moment fresh octets before result (W.contents (inner_of writer.new)))) }
        ensures goes_on_settled { S.HallStore.is_clean (store_of self.new) → (origin : Origin) (past : List Item) → IsSettled S.HallStore (store_of self.old) origin past
            → SettlesBySome S.HallStore (store_of self.new) origin past (site_of self.old) moment fresh }
        ensures same { result ≡ served.ReadFailed → (self.new ≡ self.old) × (writer.new ≡ writer.old) }
        ensures read_failed { IfReadFailed result (failed_of reader.new) (takes_of reader.new) }
        ensures in_time { IsReadInTime (R.remaining (inner_of reader.old)) (R.remaining (inner_of reader.new)) }
        ensures by_need { calls_of reader.old ≡ 0 → IsReadByNeed (R.remaining (inner_of reader.old)) (R.remaining (inner_of reader.new)) (calls_of reader.new) (takes_of reader.new) }
        ensures takes { takes_of reader.new ≤ 4096 }
        ensures unfailed { IfAnswered result (failed_of reader.new) }
        ensures write_failed { IfWriteFailed result (failed_of writer.new) }
    {
        histories_keep_the_laws();
        match self.take_request(alloc, reader, moment, fresh) {
            None => Served::ReadFailed,
            Some(answer) => send(writer, answer.octets()),
        }
    }
}
