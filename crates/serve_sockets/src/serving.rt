//! Serving a connection by steps.
ghost use Rattle.std.specs.Prelude.{◌≡◌, ◌≢◌, false};
ghost use Rattle.hall_desk.specs.{Attempt.IsOnlyRead, Desk.{site_of, store_of}, declared.arrival.Input.TheVariants.Request};
ghost use Rattle.serve_sockets.specs.{Connection.{IsAnsweredBy, IsSameClient, input_of, is_answered, number_of, stream_of}, Serving.{HoldsOn, IsOnlyMoved, IsRequest, IsStep, IsWaiting, IsWhole}, Turn.{KeepsDesk, Tells}};

use crate::connection::{Connection, Wait};
use crate::handing::Server;
use crate::handover::handover;
use crate::reading::Taken;
use crate::turn::{Handover, Kind, TurnLog};
use crate::writing::Put;
use hall_desk::{Answer, Desk, Stamp, What};
use hall_store::HallStore;
use hall_types::Digest;
use std::io::{Read, Write};

/// The stamp of a turn, and the served time at it.
#[derive(Clone, Copy)]
pub(crate) struct Now {
    pub(crate) stamp: Stamp,
    pub(crate) served: u64,
}

/// What a step of a connection came to.
pub(crate) enum Step {
    /// The client gives or takes nothing now.
    Waits,
    /// Octets were read or written, and nothing was handed over.
    Moved,
    /// The request asks for a list, and is put off.
    PutOff,
    /// The request is decided, and waits to be answered with others.
    Decided,
    /// The request was handed over, and its answer waits.
    Handed(Handover),
    /// The client has taken all of its answer.
    Done,
    Failed,
}

/// Answers a request. Its answer waits.
pub(crate) fn give<T>(connection: &mut Connection<T>, answer: Answer, now: u64) -> Handover
    ensures tells { Tells result (Request (input_of connection.old)) answer }
    ensures answered { IsAnsweredBy connection.old connection.new answer }
{
    let from = connection.from();
    let len = connection.input().len();
    let handover = handover(Kind::Request, Some(from), len, &answer);
    connection.answer(answer, now);
    handover
}

/// Hands the request over. Its answer waits then. What isn't whole counts as not having come.
pub(crate) fn hand_request<T, S: HallStore, L: TurnLog>(
    connection: &mut Connection<T>,
    server: &mut Server<S>,
    log: &mut L,
    now: Now,
) -> Handover
    ensures kept { KeepsDesk S.HallStore server.old.desk server.new.desk }
    ensures waits { S.HallStore.is_clean (store_of server.new.desk) → IsWaiting S.HallStore (store_of server.old.desk) (store_of server.new.desk) (site_of server.old.desk)
        now.stamp.moment now.stamp.fresh (input_of connection.old) connection.new result }
    ensures same { IsSameClient connection.old connection.new }
{
    let Some(request) = connection.request() else {
        return give(connection, Answer::Unavailable, now.served);
    };
    let answered = server.desk.answer_request(server.alloc, request, now.stamp);
    let (answer, account) = answered;
    log.arrived(What::Request(request), &answer, &account);
    drop(account);
    give(connection, answer, now.served)
}

// Whether an operator who is enabled has a token of this digest. The hall is only read.
fn is_known<S: HallStore>(desk: &mut Desk<S>, digest: Digest) -> bool
    ensures kept { KeepsDesk S.HallStore desk.old desk.new }
    ensures read { S.HallStore.is_clean (store_of desk.new) → IsOnlyRead S.HallStore (store_of desk.old) (store_of desk.new) }
{
    match desk.sender(Some(digest)) {
        Ok(sender) => sender.is_some(),
        Err(_) => false,
    }
}

// Puts a request for a list off, if an operator who is enabled has the token of this digest, and else hands it over.
fn decide_list<T, S: HallStore, L: TurnLog>(
    connection: &mut Connection<T>,
    server: &mut Server<S>,
    log: &mut L,
    now: Now,
    digest: Digest,
) -> Step
    ensures step { IsStep S.HallStore server.old.desk server.new.desk (IsWaiting S.HallStore (store_of server.old.desk) (store_of server.new.desk) (site_of server.old.desk)
        now.stamp.moment now.stamp.fresh (input_of connection.old) connection.new) result }
    ensures alone { result ≢ Step.Decided }
    ensures number { number_of connection.new ≡ number_of connection.old }
    ensures own { HoldsOn result connection.old connection.new }
{
    if is_known(&mut server.desk, digest) {
        connection.wait(Wait::Call);
        return Step::PutOff;
    }
    Step::Handed(hand_request(connection, server, log, now))
}

// Hands a whole request over if its list was called, puts it off if it asks for a list and hasn't waited yet, and has any other one wait to
// be answered with others.
fn decide<T: Read, S: HallStore, L: TurnLog>(
    connection: &mut Connection<T>,
    server: &mut Server<S>,
    log: &mut L,
    now: Now,
) -> Step
    requires { IsWhole (T.remaining (stream_of connection.old)) (input_of connection.old) }
    ensures step { IsStep S.HallStore server.old.desk server.new.desk (IsWaiting S.HallStore (store_of server.old.desk) (store_of server.new.desk) (site_of server.old.desk)
        now.stamp.moment now.stamp.fresh (input_of connection.old) connection.new) result }
    ensures whole { result ≡ Step.Decided → IsWhole (T.remaining (stream_of connection.new)) (input_of connection.new) }
    ensures number { number_of connection.new ≡ number_of connection.old }
    ensures own { HoldsOn result connection.old connection.new }
{
    if connection.is_called() {
        return Step::Handed(hand_request(connection, server, log, now));
    }
    match connection.list_bearer() {
        Some(digest) => decide_list(connection, server, log, now, digest),
        None => {
            connection.wait(Wait::Group);
            Step::Decided
        }
    }
}

// Reads once. A request that is decided then is handed over, or waits. One that the client ended undecided is handed over.
fn take<T: Read, S: HallStore, L: TurnLog>(
    connection: &mut Connection<T>,
    server: &mut Server<S>,
    log: &mut L,
    now: Now,
    buffer: &mut [u8],
) -> Step
    ensures step { IsStep S.HallStore server.old.desk server.new.desk (IsRequest S.HallStore (store_of server.old.desk) (store_of server.new.desk) (site_of server.old.desk)
        now.stamp.moment now.stamp.fresh (input_of connection.old) (T.remaining (stream_of connection.old)) connection.new) result }
    ensures whole { result ≡ Step.Decided → IsWhole (T.remaining (stream_of connection.new)) (input_of connection.new) }
    ensures number { number_of connection.new ≡ number_of connection.old }
    ensures own { is_answered connection.old ≡ false → HoldsOn result connection.old connection.new }
{
    match connection.take(server.alloc, buffer) {
        Taken::Waits => Step::Waits,
        Taken::More => Step::Moved,
        Taken::Whole => decide(connection, server, log, now),
        Taken::Ended => Step::Handed(hand_request(connection, server, log, now)),
        Taken::NoMemory => { Step::Handed(give(connection, Answer::Unavailable, now.served)) }
        Taken::Failed => Step::Failed,
    }
}

// Writes once.
fn put<T: Write>(connection: &mut Connection<T>, now: u64) -> Step
    ensures moved { IsOnlyMoved result }
    ensures number { number_of connection.new ≡ number_of connection.old }
    ensures own { HoldsOn result connection.old connection.new }
{
    match connection.put(now) {
        Put::Waits => Step::Waits,
        Put::More => Step::Moved,
        Put::Done => Step::Done,
        Put::Failed => Step::Failed,
    }
}

/// Reads or writes once. A request that is decided waits to be answered with others, or, if it asks for a list, until the connection is
/// called; then it is handed to the desk, and its answer waits until the client takes it. The connection's time goes by the served time.
pub(crate) fn advance<T: Read + Write, S: HallStore, L: TurnLog>(
    connection: &mut Connection<T>,
    server: &mut Server<S>,
    log: &mut L,
    now: Now,
    buffer: &mut [u8],
) -> Step
    ensures step { IsStep S.HallStore server.old.desk server.new.desk (IsRequest S.HallStore (store_of server.old.desk) (store_of server.new.desk) (site_of server.old.desk)
        now.stamp.moment now.stamp.fresh (input_of connection.old) (T.remaining (stream_of connection.old)) connection.new) result }
    ensures whole { result ≡ Step.Decided → IsWhole (T.remaining (stream_of connection.new)) (input_of connection.new) }
    ensures number { number_of connection.new ≡ number_of connection.old }
    ensures own { HoldsOn result connection.old connection.new }
{
    if connection.is_answered() {
        put(connection, now.served)
    } else if connection.is_waiting() {
        Step::Waits
    } else {
        take(connection, server, log, now, buffer)
    }
}
