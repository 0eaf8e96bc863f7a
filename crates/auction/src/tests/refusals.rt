// Each refusal that a feed can reach, at its place.
use crate::tests::prints;
use std::alloc::{AllocError, Global};
use std::test::Fail;

#[test]
fn an_opening_is_refused_at_the_number_that_is_wrong(rt: HostRuntime) -> Result<(), Fail> {
    prints(
        &rt,
        b"O 0 0\nO 1001 5\nO 10 0\nO 10 10000001\nO 1000 10000000\n",
        "refused 3 session 1 2\nrefused 3 session 2 8\nrefused 3 session 3 20\nrefused 3 session 4 27\nok\n",
    )
}

#[test]
fn a_message_out_of_turn_is_refused_at_its_first_byte(rt: HostRuntime) -> Result<(), Fail> {
    prints(
        &rt,
        b"U\nE B 0 0\nO 0 0\nC 1 1\nO 10 30000\nO 10 30000\nO 0 0\nU\n",
        "refused 2 read 1 0\nrefused 2 read 2 2\nrefused 3 session 3 12\nrefused 2 read 4 16\nok\nrefused 2 read 6 33\nrefused 2 read 7 44\nrefused 11 session 8 50\n",
    )
}

#[test]
fn an_entry_is_refused_at_its_quantity_then_at_its_price(rt: HostRuntime) -> Result<(), Fail> {
    prints(
        &rt,
        b"O 10 30000\nE B 0 10\nE B 6859 10\nE S 1 0\nE S 1 10000001\nE B 0 0\nE S 1 9995\nE B 6858 10000000\n",
        "ok\nrefused 4 session 2 15\nrefused 4 session 3 24\nrefused 5 session 4 38\nrefused 5 session 5 46\nrefused 4 session 6 59\nrefused 6 session 7 69\n1\n",
    )
}

#[test]
fn a_cut_is_refused_at_its_number_then_at_its_quantity(rt: HostRuntime) -> Result<(), Fail> {
    prints(
        &rt,
        b"O 10 30000\nE B 5 100\nC 2 0\nC 1 0\nC 1 6\nC 1 5\nC 1 1\nW 1\nE S 5 100\nW 2\n",
        "ok\n1\nrefused 7 book 3 23\nrefused 8 book 4 31\nrefused 8 book 5 37\nok\nrefused 7 book 7 47\nrefused 7 book 8 53\n2\nok\n",
    )
}

/// An opening, an entry for each of 257, a withdrawal and an entry.
fn crowded_feed(heap: Global) -> Result<Vec<u8>, AllocError> {
    let mut feed = Vec::new(heap);
    feed.extend_from_slice(b"O 1 1\n")?;
    for _ in 0..257u32 {
        feed.extend_from_slice(b"E B 1 1\n")?;
    }
    feed.extend_from_slice(b"W 1\nE B 1 1\n")?;
    Ok(feed)
}

/// The numbers 1 to 256, a refusal, and the number 257 in the place that became free.
fn crowded_lines(heap: Global) -> Result<String, AllocError> {
    let mut lines = String::new(heap);
    lines.push_str("ok\n")?;
    for number in 1..=256u32 {
        let line = format!(in heap; "{number}\n")?;
        lines.push_str(&line)?;
    }
    lines.push_str("refused 9 book 258 2054\nok\n257\n")?;
    Ok(lines)
}

#[test]
fn an_entry_to_a_full_book_is_refused_at_its_first_byte(rt: HostRuntime) -> Result<(), Fail> {
    let feed = crowded_feed(rt.alloc())?;
    let lines = crowded_lines(rt.alloc())?;
    prints(&rt, &feed, &lines)
}

#[test]
fn an_uncrossing_of_nothing_is_refused_at_its_first_byte(rt: HostRuntime) -> Result<(), Fail> {
    prints(
        &rt,
        b"O 10 9999\nU\nE B 1 10500\nE S 1 10000\nU\n",
        "ok\nrefused 11 session 2 10\n1\n2\nrefused 11 session 5 36\n",
    )
}
