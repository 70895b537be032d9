//! One request, from a reader to a writer.
ghost use Rattle.std.specs.Prelude.{◌≡◌, ◌⊎◌, List, true, false, IfErr, IfSome};
ghost use Rattle.desk_operations.specs.{Prelude.{failed_of, inner_of, takes_of, site_of, store_of, HasHistory, HasSomeRequest, Item, Origin, IsLeft, IsSettled, OrSomeRequest, SettlesBySome}, Request.{HasServed, HasSettled}};

use hall_desk::{Desk, Served};
use hall_http::Noted;
use hall_report::Fault;
use hall_store::HallStore;
use hall_types::{Moment, Token};
use std::alloc::Global;
use std::io::{Read, Write};

/// Reads one request and writes its response, whatever its code. What the request changes is kept before the first octet
/// is written. The reader and the writer are to be new. With all that came to the hall since it was new, some request came, or none, whatever
/// the reader and the writer tell; so too where the desk stops. A settled store is settled again, unless the answer is Unavailable.
///
/// # Errors
///
/// `Io` where a read or a write failed, or 4,096 reads didn't decide the request.
pub fn request<S: HallStore, R: Read, W: Write>(
    alloc: Global,
    desk: &mut Desk<S>,
    reader: &mut Noted<R>,
    writer: &mut Noted<W>,
    moment: Moment,
    fresh: Token,
) -> Result<(), Fault>
    requires takes { takes_of reader.old ≡ 0 }
    requires read { failed_of reader.old ≡ false }
    requires written { failed_of writer.old ≡ false }
    ensures clean { S.HallStore.is_clean (store_of desk.new) → S.HallStore.is_clean (store_of desk.old) }
    ensures site { site_of desk.new ≡ site_of desk.old }
    ensures served { S.HallStore.is_clean (store_of desk.new) → IfSome (R.remaining (inner_of reader.old)) (λ octets. IfSome (W.contents (inner_of writer.old)) (λ before.
        HasServed S.HallStore (store_of desk.old) (store_of desk.new) (site_of desk.old) moment fresh octets before result (W.contents (inner_of writer.new)))) }
    ensures goes_on { S.HallStore.is_clean (store_of desk.new) → (origin : Origin) (past : List Item) → HasHistory S.HallStore (store_of desk.old) origin past
        → HasSomeRequest S.HallStore (store_of desk.new) origin past (site_of desk.old) moment fresh }
    ensures stop { S.HallStore.is_clean (store_of desk.new) → (origin : Origin) (past : List Item) → IsSettled S.HallStore (store_of desk.old) origin past
        → IsLeft S.HallStore (store_of desk.new) origin (OrSomeRequest past (site_of desk.old) moment fresh) }
    ensures settled { S.HallStore.is_clean (store_of desk.new) → IfSome (R.remaining (inner_of reader.old)) (λ octets. IfSome (W.contents (inner_of writer.old)) (λ before.
        (origin : Origin) (past : List Item) → IsSettled S.HallStore (store_of desk.old) origin past
        → HasSettled S.HallStore (store_of desk.new) origin past (site_of desk.old) moment fresh octets before result (W.contents (inner_of writer.new)))) }
    ensures goes_on_settled { S.HallStore.is_clean (store_of desk.new) → (origin : Origin) (past : List Item) → IsSettled S.HallStore (store_of desk.old) origin past
        → SettlesBySome S.HallStore (store_of desk.new) origin past (site_of desk.old) moment fresh }
    ensures fault { IfErr result (λ fault. fault ≡ Fault.Io) }
    // A read failed, or 4,096 reads gave octets, or a write failed.
    ensures failed { IfErr result (λ _. (failed_of reader.new ≡ true) ⊎ ((takes_of reader.new ≡ 4096) ⊎ (failed_of writer.new ≡ true))) }
{
    match desk.serve_one(alloc, reader, writer, moment, fresh) {
        Served::Answered => Ok(()),
        Served::ReadFailed | Served::WriteFailed { .. } => Err(Fault::Io),
    }
}
