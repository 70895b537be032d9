//! Buckets of addresses, by which connections are counted.
ghost use Rattle.std.specs.{Prelude.{◌≡◌, ◌<◌}, Net.Addr.ipv6_segments};
ghost use Rattle.serve_sockets.specs.Bucket.{bucket_of, host_bucket, ipv6_bucket};

use std::net::{IpAddr, Ipv6Addr, SocketAddr};

/// How many buckets of addresses there are.
pub(crate) const BUCKETS: usize = 1_024;

// The first six segments of an IPv4-mapped address (RFC 4291 section 2.5.5.2).
const MAPPED: [u16; 6] = [0, 0, 0, 0, 0, 0xffff];

// The bucket of a host by its IPv6 address. That of an IPv4-mapped one is that of the IPv4 address, which it ends in.
fn ipv6_bucket(address: Ipv6Addr) -> usize
    ensures bucket { result ≡ ipv6_bucket (ipv6_segments address) }
    ensures within { result < 1024 }
{
    let segments = address.segments();
    if segments.starts_with(&MAPPED) {
        return usize::from(segments[7]) % BUCKETS;
    }
    let [first, second, third, fourth, ..] = segments;
    let (high, low) = (
        usize::from(first) + usize::from(second),
        usize::from(third) + usize::from(fourth),
    );
    (high + low) % BUCKETS
}

// The bucket of a host.
fn host_bucket(address: IpAddr) -> usize
    ensures bucket { result ≡ host_bucket address }
    ensures within { result < 1024 }
{
    match address {
        IpAddr::V4(address) => {
            let [_, _, high, low] = address.octets();
            (usize::from(high) * 256 + usize::from(low)) % BUCKETS
        }
        IpAddr::V6(address) => ipv6_bucket(address),
    }
}

/// The bucket of an address.
pub(crate) fn bucket(address: &SocketAddr) -> usize
    ensures bucket { result ≡ bucket_of address.now }
    ensures within { result < 1024 }
{
    host_bucket(address.ip())
}
