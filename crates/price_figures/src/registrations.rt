// Figures of the registration verdict.
use crate::figures::{Figure, show_figures};
use registration::{BestPrice, Registration, verdict};
use session::Session;

/// A best buy that is just deep enough.
const BUY: BestPrice = BestPrice {
    price: 10_000,
    depth: 100,
};

/// A best sell that is just deep enough.
const SELL: BestPrice = BestPrice {
    price: 10_200,
    depth: 100,
};

/// At 10,000, with nothing to measure it by.
const NOTHING: Registration = Registration {
    price: 10_000,
    quantity: 100,
    best_buy: None,
    best_sell: None,
    last_trade: None,
    reference: None,
};

/// Both best prices.
const BEST: Registration = Registration {
    best_buy: Some(BUY),
    best_sell: Some(SELL),
    ..NOTHING
};

/// A last trade at 10,000.
const LAST: Registration = Registration {
    last_trade: Some(10_000),
    ..NOTHING
};

/// A reference price of 10,000.
const REFERENCE: Registration = Registration {
    reference: Some(10_000),
    ..NOTHING
};

/// Everything is given.
const EVERYTHING: Registration = Registration {
    last_trade: Some(10_000),
    reference: Some(10_000),
    ..BEST
};

/// Everything at a tick of 10 and a scarcity price of 30,000.
static FIGURES: [Figure<'static, Registration>; 47] = [
    // The ends of each band.
    Figure {
        name: "8900 by best 10000 and 10200",
        given: Registration {
            price: 8_900,
            ..BEST
        },
    },
    Figure {
        name: "11320 by best 10000 and 10200",
        given: Registration {
            price: 11_320,
            ..BEST
        },
    },
    Figure {
        name: "8890 by best 10000 and 10200",
        given: Registration {
            price: 8_890,
            ..BEST
        },
    },
    Figure {
        name: "11330 by best 10000 and 10200",
        given: Registration {
            price: 11_330,
            ..BEST
        },
    },
    Figure {
        name: "7800 by last 10000",
        given: Registration {
            price: 7_800,
            ..LAST
        },
    },
    Figure {
        name: "12200 by last 10000",
        given: Registration {
            price: 12_200,
            ..LAST
        },
    },
    Figure {
        name: "7790 by last 10000",
        given: Registration {
            price: 7_790,
            ..LAST
        },
    },
    Figure {
        name: "12210 by last 10000",
        given: Registration {
            price: 12_210,
            ..LAST
        },
    },
    Figure {
        name: "7800 by reference 10000",
        given: Registration {
            price: 7_800,
            ..REFERENCE
        },
    },
    Figure {
        name: "12200 by reference 10000",
        given: Registration {
            price: 12_200,
            ..REFERENCE
        },
    },
    Figure {
        name: "7790 by reference 10000",
        given: Registration {
            price: 7_790,
            ..REFERENCE
        },
    },
    Figure {
        name: "12210 by reference 10000",
        given: Registration {
            price: 12_210,
            ..REFERENCE
        },
    },
    // The first criterion that applies decides, and later ones are not tried.
    Figure {
        name: "8890 by best, though the last trade would take it",
        given: Registration {
            price: 8_890,
            ..EVERYTHING
        },
    },
    Figure {
        name: "8890 of 101, which is more than the buys",
        given: Registration {
            price: 8_890,
            quantity: 101,
            best_sell: Some(BestPrice { depth: 200, ..SELL }),
            ..EVERYTHING
        },
    },
    Figure {
        name: "8890 of 101, which is more than the sells",
        given: Registration {
            price: 8_890,
            quantity: 101,
            best_buy: Some(BestPrice { depth: 200, ..BUY }),
            ..EVERYTHING
        },
    },
    Figure {
        name: "8890 of 101, deep enough",
        given: Registration {
            price: 8_890,
            quantity: 101,
            best_buy: Some(BestPrice { depth: 101, ..BUY }),
            best_sell: Some(BestPrice { depth: 101, ..SELL }),
            ..EVERYTHING
        },
    },
    Figure {
        name: "8890 without a best buy",
        given: Registration {
            price: 8_890,
            best_buy: None,
            ..EVERYTHING
        },
    },
    Figure {
        name: "8890 without a best sell",
        given: Registration {
            price: 8_890,
            best_sell: None,
            ..EVERYTHING
        },
    },
    Figure {
        name: "10000 by last 20000, though the reference would take it",
        given: Registration {
            last_trade: Some(20_000),
            ..REFERENCE
        },
    },
    Figure {
        name: "10000 by reference, depths 0",
        given: Registration {
            best_buy: Some(BestPrice { depth: 0, ..BUY }),
            best_sell: Some(BestPrice { depth: 0, ..SELL }),
            ..REFERENCE
        },
    },
    Figure {
        name: "10000 by best, depths 4294967295",
        given: Registration {
            best_buy: Some(BestPrice {
                depth: 4_294_967_295,
                ..BUY
            }),
            best_sell: Some(BestPrice {
                depth: 4_294_967_295,
                ..SELL
            }),
            ..BEST
        },
    },
    Figure {
        name: "10000 by nothing",
        given: NOTHING,
    },
    // One fault, in each position.
    Figure {
        name: "quantity 0",
        given: Registration {
            quantity: 0,
            ..EVERYTHING
        },
    },
    Figure {
        name: "quantity 1",
        given: Registration {
            quantity: 1,
            ..EVERYTHING
        },
    },
    Figure {
        name: "quantity 1000000",
        given: Registration {
            quantity: 1_000_000,
            ..EVERYTHING
        },
    },
    Figure {
        name: "quantity 1000001",
        given: Registration {
            quantity: 1_000_001,
            ..EVERYTHING
        },
    },
    Figure {
        name: "price 0",
        given: Registration {
            price: 0,
            ..EVERYTHING
        },
    },
    Figure {
        name: "price 10005",
        given: Registration {
            price: 10_005,
            ..EVERYTHING
        },
    },
    Figure {
        name: "price 10000005, which is off the tick too",
        given: Registration {
            price: 10_000_005,
            ..BEST
        },
    },
    Figure {
        name: "best buy 0",
        given: Registration {
            best_buy: Some(BestPrice { price: 0, ..BUY }),
            ..EVERYTHING
        },
    },
    Figure {
        name: "best buy 10005",
        given: Registration {
            best_buy: Some(BestPrice {
                price: 10_005,
                ..BUY
            }),
            ..EVERYTHING
        },
    },
    Figure {
        name: "best sell 10000010",
        given: Registration {
            best_sell: Some(BestPrice {
                price: 10_000_010,
                ..SELL
            }),
            ..EVERYTHING
        },
    },
    Figure {
        name: "best sell 10005",
        given: Registration {
            best_sell: Some(BestPrice {
                price: 10_005,
                ..SELL
            }),
            ..EVERYTHING
        },
    },
    Figure {
        name: "last 0",
        given: Registration {
            last_trade: Some(0),
            ..EVERYTHING
        },
    },
    Figure {
        name: "last 10005",
        given: Registration {
            last_trade: Some(10_005),
            ..EVERYTHING
        },
    },
    Figure {
        name: "reference 0",
        given: Registration {
            reference: Some(0),
            ..EVERYTHING
        },
    },
    Figure {
        name: "reference 10005",
        given: Registration {
            reference: Some(10_005),
            ..EVERYTHING
        },
    },
    Figure {
        name: "price 30000 by reference 30000",
        given: Registration {
            price: 30_000,
            reference: Some(30_000),
            ..NOTHING
        },
    },
    Figure {
        name: "price 30010 by reference 30000",
        given: Registration {
            price: 30_010,
            reference: Some(30_000),
            ..NOTHING
        },
    },
    // Two faults: the one named first is answered.
    Figure {
        name: "quantity 0, price 0",
        given: Registration {
            quantity: 0,
            price: 0,
            ..NOTHING
        },
    },
    Figure {
        name: "price 10005, best buy 0",
        given: Registration {
            price: 10_005,
            best_buy: Some(BestPrice { price: 0, ..BUY }),
            ..NOTHING
        },
    },
    Figure {
        name: "best buy 10005, best sell 0",
        given: Registration {
            best_buy: Some(BestPrice {
                price: 10_005,
                ..BUY
            }),
            best_sell: Some(BestPrice { price: 0, ..SELL }),
            ..NOTHING
        },
    },
    Figure {
        name: "best sell 10005, last 0",
        given: Registration {
            best_sell: Some(BestPrice {
                price: 10_005,
                ..SELL
            }),
            last_trade: Some(0),
            ..NOTHING
        },
    },
    Figure {
        name: "last 10005, reference 0",
        given: Registration {
            last_trade: Some(10_005),
            reference: Some(0),
            ..NOTHING
        },
    },
    Figure {
        name: "price 30010, reference 10005",
        given: Registration {
            price: 30_010,
            reference: Some(10_005),
            ..NOTHING
        },
    },
    Figure {
        name: "price 30010, far from reference 10000",
        given: Registration {
            price: 30_010,
            ..REFERENCE
        },
    },
    Figure {
        name: "price 30010, by nothing",
        given: Registration {
            price: 30_010,
            ..NOTHING
        },
    },
];

/// Prints a figure with its verdict, in one write.
fn show_verdict(
    rt: &HostRuntime,
    session: Session,
    name: &str,
    asked: Registration,
) -> anyhow::Result<()> {
    match verdict(session, asked) {
        Ok(criterion) => println!(rt; "registration, {name}: accepted by {}", u8::from(criterion))?,
        Err(why) => println!(rt; "registration, {name}: refused {}", u8::from(why))?,
    }
    Ok(())
}

/// Prints each figure with its verdict.
pub(crate) fn show_all(rt: &HostRuntime, session: Session) -> anyhow::Result<()> {
    show_figures(
        &FIGURES,
        |name, asked| show_verdict(rt, session, name, asked),
    )
}
