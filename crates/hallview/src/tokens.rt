//! Operators' tokens, as their files have them.
use crate::finding::FindFault;
use hallctl_requests::{BearerToken, TextFault, token_of};
use halls_file::{file_octets, is_open_to_others};

/// The token in the first line of a file. Warns where others than its owner can read it.
pub(crate) fn token_at(rt: &HostRuntime, path: &str) -> Result<BearerToken, FindFault> {
    if is_open_to_others(rt, path) {
        let _ = eprintln!(rt;
            "hallview: others can read the token in {path}: chmod o= {path}, and g= unless it is root's"
        );
    }
    let Ok(octets) = file_octets(rt, path) else {
        return Err(FindFault::UnreadToken);
    };
    match token_of(rt.alloc(), octets.as_slice()) {
        Ok(token) => Ok(token),
        Err(TextFault::BadText) => Err(FindFault::BadToken),
        Err(TextFault::Memory) => Err(FindFault::Memory),
    }
}
