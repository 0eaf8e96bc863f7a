// Steps on any make of book, and doing one a thousand times.
use book::{Body, Live, OrderBook, Side};

/// How often a step is done.
const TIMES: u32 = 1_000;

/// Bodies of both sides in turn, with limits of 1,000 to 1,255 in no order.
fn body(i: u32) -> Option<Body> {
    let side = if i % 2 == 0 { Side::Buy } else { Side::Sell };
    let turn = i % 256 * 37 % 256;
    Body::new(side, 1_000 + turn, 5)
}

fn fill<B: OrderBook>(book: &mut B, orders: u32) {
    for body in (0..orders).filter_map(body) {
        let _ = book.enter(body);
    }
}

fn quantity_of(order: Option<Live>) -> u32 {
    order.map_or(0, |live| live.body.quantity)
}

/// Enters an order and cuts its whole quantity; its number, or 0 if it is refused.
// What a step answers is only summed up, so that no step is left out: an order that is none counts 0.
fn pass<B: OrderBook>(book: &mut B, i: u32) -> u32 {
    let Some(body) = body(i) else {
        return 0;
    };
    let Ok(number) = book.enter(body) else {
        return 0;
    };
    let _ = book.cut(number, 5);
    number
}

/// Fills the book with so many orders, and does a step a thousand times. Answers something of the steps' results.
fn work<B: OrderBook, F: Fn(&mut B, u32) -> u32>(book: &mut B, orders: u32, step: F) -> u32
    requires { F.IsAlwaysCallable step }
{
    fill(book, orders);
    (0..TIMES)
        .map(|i| step(book, i))
        .fold(0u32, u32::wrapping_add)
}

/// Works by the step of a name. An unknown name does nothing, to tell what the rest of the program costs.
pub(crate) fn work_by_name<B: OrderBook>(book: &mut B, name: &str, orders: u32) -> u32 {
    match name {
        "pass" => work(book, orders, pass),
        // Each number in turn.
        "find" => work(book, orders, |book, i| {
            quantity_of(book.find(i % orders.max(1) + 1))
        }),
        // Each place of the buys in turn.
        "rank" => work(book, orders, |book, i| {
            quantity_of(book.rank(Side::Buy, (i % (orders / 2).max(1) + 1) as usize))
        }),
        // A limit that the best tenth of the buys and most of the sells meet.
        "limit" => work(book, orders, |book, i| {
            let (bought, sold) = book.at_limit(1_230 + i % 2);
            bought.wrapping_add(sold)
        }),
        _ => work(book, orders, |_, i| i),
    }
}
