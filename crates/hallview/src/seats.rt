//! The seats of sockets: where it is noted that one may have something.
ghost use Rattle.std.specs.Prelude.{◌≡◌, ◌+◌, ◌<◌};

/// The maximum of connections of clients.
pub(crate) const MAX_CONNECTIONS: usize = 256;

/// The maximum of desks that are asked at once.
pub(crate) const MAX_EXCHANGES: usize = 8;

/// The seat of the listener.
pub(crate) const LISTENER: usize = 0;

// The seat of the first connection.
const FIRST_CONNECTION: usize = 1;

// The seat of the first exchange with a desk.
const FIRST_EXCHANGE: usize = FIRST_CONNECTION + MAX_CONNECTIONS;

/// The number of seats.
pub(crate) const SEATS: usize = FIRST_EXCHANGE + MAX_EXCHANGES;

/// The seat of a connection, by its slot.
pub(crate) fn connection_seat(slot: usize) -> usize
    requires { slot < 256 }
    ensures seat { result ≡ slot + 1 }
    ensures within { result < 257 }
{
    FIRST_CONNECTION + slot
}

/// The seat of an exchange, by its slot.
pub(crate) fn exchange_seat(slot: usize) -> usize
    requires { slot < 8 }
    ensures seat { result ≡ slot + 257 }
    ensures within { result < 265 }
{
    FIRST_EXCHANGE + slot
}
