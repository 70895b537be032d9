//! Ports of datagrams.

/// The UDP port that a datagram came to (PXE 2.1): the DHCP server's, 67, or the boot server's, 4011.
#[derive(Clone, Copy, PartialEq, Eq)]
pub enum Port {
    Discover,
    Boot,
}
