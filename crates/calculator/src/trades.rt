// Trading one contract at a time.
use crate::plain::{PlainOrder, numbered};
use book::Side;
use note::Trade;
use std::alloc::AllocError;
use std::cmp::Reverse;

/// The number of the best order of a side that still holds something; of equal limits the first.
fn best(orders: &[PlainOrder], side: Side) -> Option<u32> {
    let live = (1u32..=u32::MAX)
        .zip(orders.iter())
        .filter(|(_, order)| order.side == side && order.quantity > 0);
    // Of equal keys the first is picked.
    let (number, _) = match side {
        Side::Buy => live.min_by_key(|(_, order)| Reverse(order.limit))?,
        Side::Sell => live.min_by_key(|(_, order)| order.limit)?,
    };
    Some(number)
}

/// Takes one contract from the order of a number.
fn take_one(orders: &mut [PlainOrder], number: u32) {
    if let Some(order) = numbered(orders, number) {
        order.quantity = order.quantity.saturating_sub(1);
    }
}

/// One contract more of a pair: in its last trade, or in a new one.
fn add_one(trades: &mut Vec<Trade>, buy: u32, sell: u32) -> Result<(), AllocError> {
    if let Some(last) = trades.last_mut() {
        if last.buy == buy && last.sell == sell {
            last.quantity = last.quantity.saturating_add(1);
            return Ok(());
        }
    }
    trades.push(Trade {
        buy,
        sell,
        quantity: 1,
    })?;
    Ok(())
}

/// One contract between the best buy and the best sell.
pub(crate) fn trade_one(
    orders: &mut [PlainOrder],
    trades: &mut Vec<Trade>,
) -> Result<(), AllocError> {
    let (Some(buy), Some(sell)) = (best(orders, Side::Buy), best(orders, Side::Sell)) else {
        return Ok(());
    };
    take_one(orders, buy);
    take_one(orders, sell);
    add_one(trades, buy, sell)
}
