//! Which seat is next.
ghost use Rattle.std.specs.Prelude.{◌≡◌, ◌<◌, All, false, IfNone, IfSome, length};
ghost use Rattle.serve_sockets.specs.{Marks.{AreClear, IsFirst}, Ring.IsNext};

/// The first ready seat from `from` on and before `to`.
pub(crate) fn first_ready(ready: &[bool], from: usize, to: usize) -> Option<usize>
    ensures first { IfSome result (IsFirst ready.now from) }
    ensures before { IfSome result (λ seat. seat < to) }
    ensures none { IfNone result (AreClear ready.now from to) }
{
    for seat in from..to.min(ready.len()) {
        if ready[seat] {
            return Some(seat);
        }
    }
    None
}

/// The first ready seat from `from` on, up and round.
pub(crate) fn next_ready(ready: &[bool], from: usize) -> Option<usize>
    ensures next { IfSome result (IsNext ready.now from) }
    ensures within { IfSome result (λ seat. seat < length ready.now) }
    ensures none { IfNone result (All (λ is. is ≡ false) ready.now) }
{
    if let Some(seat) = first_ready(ready, from, ready.len()) {
        return Some(seat);
    }
    first_ready(ready, 0, from)
}
