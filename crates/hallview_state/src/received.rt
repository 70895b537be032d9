//! Answers of desks, as they were received.
ghost use Rattle.std.specs.Prelude.{◌≡◌};
ghost use Rattle.hallview_state.specs.Received.{body_of};

/// A desk's answer to `GET /machines`.
#[derive(Drop)]
pub struct Received {
    /// The status (RFC 9110 section 15).
    pub status: u16,
    /// The octets, of which the last ones are the body.
    pub octets: Vec<u8>,
    /// The place in the octets at which the body begins.
    pub start: usize,
}

impl Received {
    /// The body, empty where it begins beyond the octets.
    pub(crate) fn body(&self) -> &[u8]
        ensures { result.now ≡ body_of self.now }
    {
        match self.octets.get(self.start..) {
            Some(body) => body,
            None => &[],
        }
    }
}
