//! Parts of slices.
ghost use Rattle.std.specs.Prelude.{◌≡◌, ◌≤◌, length, take, drop};

/// The first octets, at most as many as the limit.
pub fn prefix(octets: &[u8], limit: usize) -> &[u8]
    ensures value { result.now ≡ take limit octets.now }
    ensures within { length result.now ≤ length octets.now }
{
    if octets.len() <= limit {
        octets
    } else {
        &octets[..limit]
    }
}

/// The octets from a place on.
pub fn suffix(octets: &[u8], at: usize) -> &[u8]
    requires { at ≤ length octets.now }
    ensures { result.now ≡ drop at octets.now }
{
    octets.split_at(at).1
}
