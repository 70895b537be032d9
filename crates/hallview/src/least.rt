//! The place of the least of some numbers.
ghost use Rattle.std.specs.Prelude.{◌<◌, length};
ghost use Rattle.hallview.specs.Least.{IsLeast};

/// The first place of the least number.
pub(crate) fn least_place(numbers: &[u64]) -> usize
    requires { 0 < length numbers.now }
    ensures within { result < length numbers.now }
    ensures least { IsLeast numbers.now result }
{
    let mut least = 0;
    for place in 1..numbers.len() {
        if numbers[place] < numbers[least] {
            least = place;
        }
    }
    least
}
