// What is printed of whole feeds.
mod bytes;
mod lengths;
mod refusals;
mod uncrossings;

use crate::reports::report;
use std::process::Abort;
use std::test::Fail;

/// That a feed prints these lines.
fn prints(rt: &(impl Abort + AllocGlobal), feed: &[u8], lines: &str) -> Result<(), Fail> {
    let text = report(rt.alloc(), feed)?;
    assert!(rt; text.as_str() == lines);
    Ok(())
}
