//! Acts that are played one after the other.
use std::alloc::{AllocError, Global};

/// The acts of a list, ` && ` between two of them; a `group` or what comes `together` has all that follows.
pub(crate) fn acts_of(alloc: Global, words: &str) -> Result<Vec<&str>, AllocError> {
    let mut acts = Vec::new(alloc);
    let mut rest = words;
    for _ in 0..words.len() {
        let has_all = rest.starts_with("group ") || rest.starts_with("together ");
        let Some((act, more)) = rest.split_once(" && ") else {
            break;
        };
        if has_all {
            break;
        }
        acts.push(act)?;
        rest = more;
    }
    acts.push(rest)?;
    Ok(acts)
}
