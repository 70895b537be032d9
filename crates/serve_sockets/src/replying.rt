//! Replies to datagrams.
ghost use Rattle.std.specs.Prelude.{◌≡◌, false};
ghost use Rattle.hall_desk.specs.{Attempt.IsOnlyRead, Desk.{enlists_of, site_of, store_of}};
ghost use Rattle.serve_sockets.specs.Replying.{IsReplied, IsSent};

use crate::handing::Server;
use crate::handover::handover;
use crate::turn::{Handover, Kind, TurnLog};
use hall_desk::{Answer, Stamp, What};
use hall_store::HallStore;
use hall_types::Port;
use std::net::SocketAddr;

/// At which port a datagram came, and from where. Its reply goes the same way back.
#[derive(Clone, Copy)]
pub(crate) struct Way {
    pub(crate) port: Port,
    pub(crate) client: SocketAddr,
}

/// A datagram that came.
#[derive(Clone, Copy)]
pub(crate) struct Datagram<'a> {
    pub(crate) way: Way,
    pub(crate) octets: &'a [u8],
}

/// What sends replies.
pub(crate) trait SendReply {
    ghost use Rattle.std.specs.Prelude.{⊤, ℕ, List};
    ghost use Rattle.serve_sockets.specs.declared.replying.Way.{Way};

    // Holds of what sends before a call, of the way and the octets that it was given, and of what sends after it.
    ghost may_send: { Self → Way → List ℕ → Self → Type 0 } = { λ _ _ _ _. ⊤ };

    /// Sends octets that way as one datagram, and says whether it could be sent.
    fn send_reply(&mut self, way: Way, octets: &[u8]) -> bool
        ensures { may_send self.old way octets.now self.new };
}

// Sends an answer that is a reply, once, and says whether it could be sent. Nothing is sent for another answer.
fn send<P: SendReply>(sender: &mut P, way: Way, answer: &Answer) -> bool
    ensures { IsSent P.SendReply.may_send sender.old way answer.now sender.new }
{
    match answer {
        Answer::Frame(octets) => sender.send_reply(way, octets.as_slice()),
        _ => true,
    }
}

/// Hands a datagram over, and sends its own answer, if it is a reply, once, the way that the datagram came: what is told of it, and
/// whether the reply could be sent.
pub(crate) fn reply<S: HallStore, L: TurnLog, P: SendReply>(
    server: &mut Server<S>,
    log: &mut L,
    stamp: Stamp,
    datagram: Datagram<'_>,
    sender: &mut P,
) -> (Handover, bool)
    ensures site { site_of server.new.desk ≡ site_of server.old.desk }
    ensures enlists { enlists_of server.new.desk ≡ enlists_of server.old.desk }
    ensures replied { IsReplied S.HallStore P.SendReply.may_send (store_of server.old.desk) (store_of server.new.desk)
        sender.old sender.new (site_of server.old.desk) stamp.moment stamp.fresh datagram.entry.way datagram.entry.octets.now result.0 }
    ensures unlisted { enlists_of server.old.desk ≡ false → S.HallStore.is_clean (store_of server.new.desk)
        → IsOnlyRead S.HallStore (store_of server.old.desk) (store_of server.new.desk) }
{
    let Datagram { way, octets } = datagram;
    let answered = server
        .desk
        .answer_datagram(server.alloc, way.port, octets, stamp);
    let (answer, account) = answered;
    log.arrived(What::Datagram(way.port), &answer, &account);
    drop(account);
    let kind = Kind::Datagram(way.port);
    let handover = handover(kind, Some(way.client), octets.len(), &answer);
    let is_sent = send(sender, way, &answer);
    (handover, is_sent)
}
