// What is printed of uncrossings.
use crate::tests::prints;
use std::test::Fail;

#[test]
fn an_empty_feed_prints_nothing(rt: HostRuntime) -> Result<(), Fail> {
    prints(&rt, b"", "")
}

#[test]
fn an_imbalance_of_sells_begins_with_a_minus(rt: HostRuntime) -> Result<(), Fail> {
    prints(
        &rt,
        b"O 10 30000\nE B 10 10500\nE S 15 10000\nU\n",
        "ok\n1\n2\n10000 10 -5\n1 2 10\n",
    )
}

#[test]
fn each_uncrossing_prints_its_own_trades(rt: HostRuntime) -> Result<(), Fail> {
    prints(
        &rt,
        b"O 10 30000\nE B 5 100\nE S 3 100\nU\nE S 2 90\nU\nU\n",
        "ok\n1\n2\n100 3 2\n1 2 3\n3\n100 2 0\n1 3 2\nrefused 11 session 7 44\n",
    )
}

#[test]
fn a_refused_line_disturbs_nothing(rt: HostRuntime) -> Result<(), Fail> {
    prints(
        &rt,
        b"O 10 30000\nE B 6 10000\nE B 7 10005\nC 1 7\nx\nE S 8 10000\nU\n",
        "ok\n1\nrefused 6 session 3 29\nrefused 8 book 4 39\nrefused 1 read 5 41\n2\n10000 6 -2\n1 2 6\n",
    )
}
