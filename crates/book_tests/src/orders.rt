// Bodies, and live orders, that a test expects to be in range.
use book::{Body, Live, Side};
use std::test::Fail;

pub(crate) fn body(side: Side, limit: u32, quantity: u32) -> Result<Body, Fail> {
    Body::new(side, limit, quantity).ok_or_else(|| Fail::new("a body out of range"))
}

/// The order of a number, as a book shows it that holds it.
pub(crate) fn seen(
    number: u32,
    side: Side,
    limit: u32,
    quantity: u32,
) -> Result<Option<Live>, Fail> {
    let body = body(side, limit, quantity)?;
    Ok(Some(Live { number, body }))
}
