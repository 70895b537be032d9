//! What a command line of hallview asks for.
use std::net::SocketAddr;

/// What a command line says. Its texts are words of the command line.
#[derive(Drop)]
pub(crate) struct Line<'a> {
    /// Where pages are asked for.
    pub(crate) listen: SocketAddr,
    /// The seconds from one look at a desk to the next: 1 to 3600, and 5 where nothing else is said.
    pub(crate) every: u64,
    /// The hosts that a request may name beside loopback's, in upper or lower case, without a port.
    pub(crate) names: Vec<&'a str>,
    pub(crate) halls: Halls<'a>,
}

/// Which halls are shown.
#[derive(Clone, Copy)]
pub(crate) enum Halls<'a> {
    /// That of one desk, with the file whose first line is the token.
    One { desk: &'a str, token_file: &'a str },
    /// Those that this file names.
    File(&'a str),
}
