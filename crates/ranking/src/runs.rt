// Runs of ranked items.
ghost use Rattle.std.specs.Prelude.{◌≡◌, ◌≤◌, true, List, [], ◌∷◌, ◌++◌, length, take, drop};
ghost use Rattle.std.specs.List.{position_or_len};
ghost use Rattle.ranking.specs.Runs.{placed, in_rank};

use crate::rankings::Ranked;

/// The place of the first item of the run that `item` goes before, or the run's length.
fn place_of<T: Ranked>(run: &[T], item: &T) -> usize
    ensures within { result ≤ length run.now }
    ensures value { result ≡ position_or_len (T.before item.now) run.now }
{
    run.iter()
        .position(|other| item.goes_before(other))
        .unwrap_or(run.len())
}

/// Moves the last item of the run to its place among the others: just before the first that it goes before, or last.
pub fn settle_last<T: Ranked + Copy>(run: &mut [T])
    ensures placed { (xs : List T) (x : T) → run.old ≡ xs ++ x ∷ [] → run.new ≡ placed T.before x xs }
    ensures empty { run.old ≡ [] → run.new ≡ [] }
    ensures ranked { (xs : List T) (x : T) → run.old ≡ xs ++ x ∷ [] → in_rank T.before xs ≡ true → in_rank T.before run.new ≡ true }
{
    let len = run.len();
    if len == 0 {
        return;
    }
    let item = run[len - 1];
    let place = place_of(&run[0..len - 1], &item);
    run[place..len].rotate_right(1);
}

/// Whether no item of the run goes before an earlier one.
pub fn is_in_rank<T: Ranked>(run: &[T]) -> bool
    ensures { result ≡ in_rank T.before run.now }
{
    run.is_sorted_by(|one, other| !other.goes_before(one))
}
