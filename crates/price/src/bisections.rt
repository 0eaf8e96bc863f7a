// The one bisection: where a test begins to hold.
ghost use Rattle.std.specs.Prelude.{◌-◌, ◌<◌, ◌≤◌, true, false};

/// A number from `low` to `high` before which the test fails, and at which it holds if it is below `high`.
///
/// It is the lowest at which the test holds, where a test that holds at a number holds at the next.
pub(crate) fn lowest<F: Fn(u32) -> bool>(low: u32, high: u32, holds: F) -> u32
    requires callable { F.IsAlwaysCallable holds }
    requires order { low ≤ high }
    ensures least { low ≤ result }
    ensures most { result ≤ high }
    ensures at { result < high → F.post holds result true }
    ensures before { low < result → F.post holds (result - 1) false }
{
    // By hand, since `partition_point` asks for a slice, and no slice holds all the numbers of a range.
    let mut from = low;
    let mut to = high;
    while from < to {
        let middle = from + (to - from) / 2;
        if holds(middle) {
            to = middle;
        } else {
            from = middle + 1;
        }
    }
    from
}
