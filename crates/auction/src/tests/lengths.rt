// The longest feed, and one that is longer.
use crate::tests::prints;
use std::alloc::{AllocError, Global};
use std::test::Fail;

/// So many uncrossings.
fn uncrossings(heap: Global, count: usize) -> Result<Vec<u8>, AllocError> {
    let mut feed = Vec::new(heap);
    for _ in 0..count {
        feed.extend_from_slice(b"U\n")?;
    }
    Ok(feed)
}

/// So many uncrossings before an opening, of two bytes each.
fn all_out_of_turn(heap: Global, count: usize) -> Result<String, AllocError> {
    let mut lines = String::new(heap);
    for before in 0..count.min(1_000_000) {
        let number = before + 1;
        let place = before * 2;
        let line = format!(in heap; "refused 2 read {number} {place}\n")?;
        lines.push_str(&line)?;
    }
    Ok(lines)
}

#[test]
fn the_longest_feed_is_played(rt: HostRuntime) -> Result<(), Fail> {
    let feed = uncrossings(rt.alloc(), 32_768)?;
    assert_eq!(rt; feed.len(), 65_536usize);
    let lines = all_out_of_turn(rt.alloc(), 32_768)?;
    prints(&rt, &feed, &lines)
}

#[test]
fn a_longer_feed_is_refused_whole(rt: HostRuntime) -> Result<(), Fail> {
    let mut feed = uncrossings(rt.alloc(), 32_768)?;
    feed.push(b'\n')?;
    prints(&rt, &feed, "refused 1 read 0 65536\n")
}
