// Counts of what came of a trial, as text.
ghost use Rattle.std.specs.Prelude.{◌≡◌, count_by, Bool};
ghost use Rattle.std.specs.Fn.{FnReturnsAt};
ghost use Rattle.trials.specs.Counts.{Computes};

use std::io;

/// How many of the items a test holds of.
pub fn how_many<T, F: Fn(&T) -> bool>(items: &[T], counts: F) -> usize
    requires { F.IsAlwaysCallable counts }
    ensures { (test : T → Bool) → Computes (FnReturnsAt F.Fn counts) test items.now → result ≡ count_by test items.now }
{
    // A `for` and no chain: where the caller gives the test, nothing is known of what a chain's filter leaves out.
    let mut count = 0usize;
    for item in items {
        if counts(item) {
            count += 1;
        }
    }
    count
}

/// Prints a line of these words and of how many of the items a test holds of.
pub fn show_count<T, F: Fn(&T) -> bool>(
    rt: &impl Print,
    words: &str,
    items: &[T],
    counts: F,
) -> io::Result<()>
    requires { F.IsAlwaysCallable counts }
{
    println!(rt; "{words} {}", how_many(items, counts))
}
