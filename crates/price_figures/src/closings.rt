// Figures of the closing price.
use crate::figures::{Figure, show_figures};
use closing::{ClosingInputs, LastPrice, PricedTrade, closing_price};
use ranking::SurveyPrice;
use session::Session;

/// Nothing is given.
const NOTHING: ClosingInputs<'static> = ClosingInputs {
    today: None,
    last: None,
    out_of_market: false,
    trades: &[],
    best_buy: None,
    best_sell: None,
    survey: &[],
};

/// Everything is given, and each criterion would give another price.
const EVERYTHING: ClosingInputs<'static> = ClosingInputs {
    today: Some(11_000),
    last: Some(LastPrice {
        price: 12_000,
        age: 1,
    }),
    out_of_market: false,
    trades: &[PricedTrade {
        price: 13_000,
        quantity: 1,
    }; 3],
    best_buy: Some(14_000),
    best_sell: Some(14_000),
    survey: &[SurveyPrice {
        price: 15_000,
        contributor: 1,
    }; 5],
};

/// Everything at a tick of 10 and a scarcity price of 30,000.
static FIGURES: [Figure<'static, ClosingInputs<'static>>; 70] = [
    // Each criterion but the survey, alone.
    Figure {
        name: "nothing",
        given: NOTHING,
    },
    Figure {
        name: "today 10000",
        given: ClosingInputs {
            today: Some(10_000),
            ..NOTHING
        },
    },
    Figure {
        name: "today 10",
        given: ClosingInputs {
            today: Some(10),
            ..NOTHING
        },
    },
    Figure {
        name: "today 10000000",
        given: ClosingInputs {
            today: Some(10_000_000),
            ..NOTHING
        },
    },
    Figure {
        name: "today 10000 marked",
        given: ClosingInputs {
            today: Some(10_000),
            out_of_market: true,
            ..NOTHING
        },
    },
    Figure {
        name: "last 9990 of age 0",
        given: ClosingInputs {
            last: Some(LastPrice {
                price: 9_990,
                age: 0,
            }),
            ..NOTHING
        },
    },
    Figure {
        name: "last 9990 of age 1",
        given: ClosingInputs {
            last: Some(LastPrice {
                price: 9_990,
                age: 1,
            }),
            ..NOTHING
        },
    },
    Figure {
        name: "last 9990 of age 5",
        given: ClosingInputs {
            last: Some(LastPrice {
                price: 9_990,
                age: 5,
            }),
            ..NOTHING
        },
    },
    Figure {
        name: "last 9990 of age 6",
        given: ClosingInputs {
            last: Some(LastPrice {
                price: 9_990,
                age: 6,
            }),
            ..NOTHING
        },
    },
    Figure {
        name: "last 9990 of age 1 marked",
        given: ClosingInputs {
            last: Some(LastPrice {
                price: 9_990,
                age: 1,
            }),
            out_of_market: true,
            ..NOTHING
        },
    },
    Figure {
        name: "1 at 10000, 1 at 10000, 2 at 10010",
        given: ClosingInputs {
            trades: &[
                PricedTrade {
                    price: 10_000,
                    quantity: 1,
                },
                PricedTrade {
                    price: 10_000,
                    quantity: 1,
                },
                PricedTrade {
                    price: 10_010,
                    quantity: 2,
                },
            ],
            ..NOTHING
        },
    },
    Figure {
        name: "6858 at 10000, 1 at 20000, 1 at 20000",
        given: ClosingInputs {
            trades: &[
                PricedTrade {
                    price: 10_000,
                    quantity: 6_858,
                },
                PricedTrade {
                    price: 20_000,
                    quantity: 1,
                },
                PricedTrade {
                    price: 20_000,
                    quantity: 1,
                },
            ],
            ..NOTHING
        },
    },
    Figure {
        name: "two trades",
        given: ClosingInputs {
            trades: &[PricedTrade {
                price: 10_000,
                quantity: 1,
            }; 2],
            ..NOTHING
        },
    },
    Figure {
        name: "best 10000 and 15000",
        given: ClosingInputs {
            best_buy: Some(10_000),
            best_sell: Some(15_000),
            ..NOTHING
        },
    },
    Figure {
        name: "best 10000 and 15010",
        given: ClosingInputs {
            best_buy: Some(10_000),
            best_sell: Some(15_010),
            ..NOTHING
        },
    },
    Figure {
        name: "best 10000 and 10010",
        given: ClosingInputs {
            best_buy: Some(10_000),
            best_sell: Some(10_010),
            ..NOTHING
        },
    },
    Figure {
        name: "best 10010 and 10000",
        given: ClosingInputs {
            best_buy: Some(10_010),
            best_sell: Some(10_000),
            ..NOTHING
        },
    },
    Figure {
        name: "best buy 10000 alone",
        given: ClosingInputs {
            best_buy: Some(10_000),
            ..NOTHING
        },
    },
    Figure {
        name: "best sell 10000 alone",
        given: ClosingInputs {
            best_sell: Some(10_000),
            ..NOTHING
        },
    },
    // The survey alone.
    Figure {
        name: "survey of 4",
        given: ClosingInputs {
            survey: &[
                SurveyPrice {
                    price: 9_000,
                    contributor: 1,
                },
                SurveyPrice {
                    price: 9_500,
                    contributor: 2,
                },
                SurveyPrice {
                    price: 10_000,
                    contributor: 3,
                },
                SurveyPrice {
                    price: 10_500,
                    contributor: 4,
                },
            ],
            ..NOTHING
        },
    },
    Figure {
        name: "survey of 5 around 10000",
        given: ClosingInputs {
            survey: &[
                SurveyPrice {
                    price: 9_000,
                    contributor: 1,
                },
                SurveyPrice {
                    price: 9_500,
                    contributor: 2,
                },
                SurveyPrice {
                    price: 10_000,
                    contributor: 3,
                },
                SurveyPrice {
                    price: 10_500,
                    contributor: 4,
                },
                SurveyPrice {
                    price: 29_000,
                    contributor: 5,
                },
            ],
            ..NOTHING
        },
    },
    Figure {
        name: "survey of 6 around 10000 and 10010",
        given: ClosingInputs {
            survey: &[
                SurveyPrice {
                    price: 9_000,
                    contributor: 1,
                },
                SurveyPrice {
                    price: 9_500,
                    contributor: 2,
                },
                SurveyPrice {
                    price: 10_000,
                    contributor: 3,
                },
                SurveyPrice {
                    price: 10_010,
                    contributor: 4,
                },
                SurveyPrice {
                    price: 10_500,
                    contributor: 5,
                },
                SurveyPrice {
                    price: 29_000,
                    contributor: 6,
                },
            ],
            ..NOTHING
        },
    },
    Figure {
        name: "survey of 5 above the scarcity price",
        given: ClosingInputs {
            survey: &[SurveyPrice {
                price: 40_000,
                contributor: 1,
            }; 5],
            ..NOTHING
        },
    },
    Figure {
        name: "survey of 64",
        given: ClosingInputs {
            survey: &[SurveyPrice {
                price: 10_000,
                contributor: 1,
            }; 64],
            ..NOTHING
        },
    },
    Figure {
        name: "survey of 65",
        given: ClosingInputs {
            survey: &[SurveyPrice {
                price: 10_000,
                contributor: 1,
            }; 65],
            ..NOTHING
        },
    },
    Figure {
        name: "survey that falls",
        given: ClosingInputs {
            survey: &[
                SurveyPrice {
                    price: 10_010,
                    contributor: 1,
                },
                SurveyPrice {
                    price: 10_000,
                    contributor: 2,
                },
            ],
            ..NOTHING
        },
    },
    Figure {
        name: "survey whose codes fall",
        given: ClosingInputs {
            survey: &[
                SurveyPrice {
                    price: 10_000,
                    contributor: 2,
                },
                SurveyPrice {
                    price: 10_000,
                    contributor: 1,
                },
            ],
            ..NOTHING
        },
    },
    // The first criterion that serves gives the price.
    Figure {
        name: "everything",
        given: EVERYTHING,
    },
    Figure {
        name: "not today's",
        given: ClosingInputs {
            today: None,
            ..EVERYTHING
        },
    },
    Figure {
        name: "nor the last one's",
        given: ClosingInputs {
            out_of_market: true,
            ..EVERYTHING
        },
    },
    Figure {
        name: "nor trades",
        given: ClosingInputs {
            out_of_market: true,
            trades: &[],
            ..EVERYTHING
        },
    },
    Figure {
        name: "nor narrow best prices",
        given: ClosingInputs {
            out_of_market: true,
            trades: &[],
            best_sell: Some(19_010),
            ..EVERYTHING
        },
    },
    Figure {
        name: "nor a survey",
        given: ClosingInputs {
            out_of_market: true,
            trades: &[],
            best_sell: Some(19_010),
            survey: &[],
            ..EVERYTHING
        },
    },
    // One fault, in each position. What would serve does not help.
    Figure {
        name: "today 0",
        given: ClosingInputs {
            today: Some(0),
            ..EVERYTHING
        },
    },
    Figure {
        name: "today 10000010",
        given: ClosingInputs {
            today: Some(10_000_010),
            ..EVERYTHING
        },
    },
    Figure {
        name: "today 11005",
        given: ClosingInputs {
            today: Some(11_005),
            ..EVERYTHING
        },
    },
    Figure {
        name: "today 0 marked",
        given: ClosingInputs {
            today: Some(0),
            out_of_market: true,
            ..EVERYTHING
        },
    },
    Figure {
        name: "last 0",
        given: ClosingInputs {
            last: Some(LastPrice { price: 0, age: 1 }),
            ..EVERYTHING
        },
    },
    Figure {
        name: "last 12005",
        given: ClosingInputs {
            last: Some(LastPrice {
                price: 12_005,
                age: 1,
            }),
            ..EVERYTHING
        },
    },
    Figure {
        name: "last 10000010 marked",
        given: ClosingInputs {
            last: Some(LastPrice {
                price: 10_000_010,
                age: 1,
            }),
            out_of_market: true,
            ..EVERYTHING
        },
    },
    Figure {
        name: "trade of 0",
        given: ClosingInputs {
            trades: &[PricedTrade {
                price: 13_000,
                quantity: 0,
            }],
            ..EVERYTHING
        },
    },
    Figure {
        name: "trade of 6859",
        given: ClosingInputs {
            trades: &[PricedTrade {
                price: 13_000,
                quantity: 6_859,
            }],
            ..EVERYTHING
        },
    },
    Figure {
        name: "trade of 6858",
        given: ClosingInputs {
            trades: &[PricedTrade {
                price: 13_000,
                quantity: 6_858,
            }],
            ..EVERYTHING
        },
    },
    Figure {
        name: "trade at 0",
        given: ClosingInputs {
            trades: &[PricedTrade {
                price: 0,
                quantity: 1,
            }],
            ..EVERYTHING
        },
    },
    Figure {
        name: "trade at 13005",
        given: ClosingInputs {
            trades: &[PricedTrade {
                price: 13_005,
                quantity: 1,
            }],
            ..EVERYTHING
        },
    },
    Figure {
        name: "third trade of 0",
        given: ClosingInputs {
            trades: &[
                PricedTrade {
                    price: 13_000,
                    quantity: 1,
                },
                PricedTrade {
                    price: 13_000,
                    quantity: 1,
                },
                PricedTrade {
                    price: 13_000,
                    quantity: 0,
                },
            ],
            ..EVERYTHING
        },
    },
    Figure {
        name: "third trade at 13005",
        given: ClosingInputs {
            trades: &[
                PricedTrade {
                    price: 13_000,
                    quantity: 1,
                },
                PricedTrade {
                    price: 13_000,
                    quantity: 1,
                },
                PricedTrade {
                    price: 13_005,
                    quantity: 1,
                },
            ],
            ..EVERYTHING
        },
    },
    Figure {
        name: "best buy 0",
        given: ClosingInputs {
            best_buy: Some(0),
            ..EVERYTHING
        },
    },
    Figure {
        name: "best buy 14005",
        given: ClosingInputs {
            best_buy: Some(14_005),
            ..EVERYTHING
        },
    },
    Figure {
        name: "best sell 0",
        given: ClosingInputs {
            best_sell: Some(0),
            ..EVERYTHING
        },
    },
    Figure {
        name: "best sell 14005",
        given: ClosingInputs {
            best_sell: Some(14_005),
            ..EVERYTHING
        },
    },
    Figure {
        name: "survey price 0",
        given: ClosingInputs {
            survey: &[SurveyPrice {
                price: 0,
                contributor: 1,
            }],
            ..EVERYTHING
        },
    },
    Figure {
        name: "survey price 15005",
        given: ClosingInputs {
            survey: &[SurveyPrice {
                price: 15_005,
                contributor: 1,
            }],
            ..EVERYTHING
        },
    },
    Figure {
        name: "fifth survey price 10000010",
        given: ClosingInputs {
            survey: &[
                SurveyPrice {
                    price: 15_000,
                    contributor: 1,
                },
                SurveyPrice {
                    price: 15_000,
                    contributor: 1,
                },
                SurveyPrice {
                    price: 15_000,
                    contributor: 1,
                },
                SurveyPrice {
                    price: 15_000,
                    contributor: 1,
                },
                SurveyPrice {
                    price: 10_000_010,
                    contributor: 1,
                },
            ],
            ..EVERYTHING
        },
    },
    Figure {
        name: "fifth survey price 15005",
        given: ClosingInputs {
            survey: &[
                SurveyPrice {
                    price: 15_000,
                    contributor: 1,
                },
                SurveyPrice {
                    price: 15_000,
                    contributor: 1,
                },
                SurveyPrice {
                    price: 15_000,
                    contributor: 1,
                },
                SurveyPrice {
                    price: 15_000,
                    contributor: 1,
                },
                SurveyPrice {
                    price: 15_005,
                    contributor: 1,
                },
            ],
            ..EVERYTHING
        },
    },
    // Two faults: the one named first is answered.
    Figure {
        name: "today 10000005, which is off the tick too",
        given: ClosingInputs {
            today: Some(10_000_005),
            ..NOTHING
        },
    },
    Figure {
        name: "survey of 65, today 0",
        given: ClosingInputs {
            today: Some(0),
            survey: &[SurveyPrice {
                price: 10_000,
                contributor: 1,
            }; 65],
            ..NOTHING
        },
    },
    Figure {
        name: "survey that falls, today 0",
        given: ClosingInputs {
            today: Some(0),
            survey: &[
                SurveyPrice {
                    price: 10_010,
                    contributor: 1,
                },
                SurveyPrice {
                    price: 10_000,
                    contributor: 2,
                },
            ],
            ..NOTHING
        },
    },
    Figure {
        name: "survey that falls to 10005",
        given: ClosingInputs {
            survey: &[
                SurveyPrice {
                    price: 10_010,
                    contributor: 1,
                },
                SurveyPrice {
                    price: 10_005,
                    contributor: 2,
                },
            ],
            ..NOTHING
        },
    },
    Figure {
        name: "1025 trades, today 0",
        given: ClosingInputs {
            today: Some(0),
            trades: &[PricedTrade {
                price: 10_000,
                quantity: 1,
            }; 1_025],
            ..NOTHING
        },
    },
    Figure {
        name: "today 11005, last 0",
        given: ClosingInputs {
            today: Some(11_005),
            last: Some(LastPrice { price: 0, age: 0 }),
            ..NOTHING
        },
    },
    Figure {
        name: "last 12005, trade of 0",
        given: ClosingInputs {
            last: Some(LastPrice {
                price: 12_005,
                age: 0,
            }),
            trades: &[PricedTrade {
                price: 13_000,
                quantity: 0,
            }],
            ..NOTHING
        },
    },
    Figure {
        name: "trade of 0 at 0",
        given: ClosingInputs {
            trades: &[PricedTrade {
                price: 0,
                quantity: 0,
            }],
            ..NOTHING
        },
    },
    Figure {
        name: "trade at 13005, trade of 0",
        given: ClosingInputs {
            trades: &[
                PricedTrade {
                    price: 13_005,
                    quantity: 1,
                },
                PricedTrade {
                    price: 13_000,
                    quantity: 0,
                },
            ],
            ..NOTHING
        },
    },
    Figure {
        name: "trade of 0, best buy 0",
        given: ClosingInputs {
            trades: &[PricedTrade {
                price: 13_000,
                quantity: 0,
            }],
            best_buy: Some(0),
            ..NOTHING
        },
    },
    Figure {
        name: "best buy 14005, best sell 0",
        given: ClosingInputs {
            best_buy: Some(14_005),
            best_sell: Some(0),
            ..NOTHING
        },
    },
    Figure {
        name: "best sell 14005, survey price 0",
        given: ClosingInputs {
            best_sell: Some(14_005),
            survey: &[SurveyPrice {
                price: 0,
                contributor: 1,
            }],
            ..NOTHING
        },
    },
    Figure {
        name: "survey price 0, no criterion",
        given: ClosingInputs {
            survey: &[SurveyPrice {
                price: 0,
                contributor: 1,
            }],
            ..NOTHING
        },
    },
    // The most trades, with the largest sums, and one more.
    Figure {
        name: "1024 trades of 6858 at 10000000",
        given: ClosingInputs {
            trades: &[PricedTrade {
                price: 10_000_000,
                quantity: 6_858,
            }; 1_024],
            ..NOTHING
        },
    },
    Figure {
        name: "1025 trades",
        given: ClosingInputs {
            trades: &[PricedTrade {
                price: 10_000,
                quantity: 1,
            }; 1_025],
            ..NOTHING
        },
    },
];

/// Prints a figure with its closing price, in one write.
fn show_price(
    rt: &HostRuntime,
    session: Session,
    name: &str,
    inputs: ClosingInputs<'static>,
) -> anyhow::Result<()> {
    match closing_price(session, inputs) {
        Ok(price) => println!(rt; "closing, {name}: {price}")?,
        Err(why) => println!(rt; "closing, {name}: refused {}", u8::from(why))?,
    }
    Ok(())
}

/// Prints each figure with its closing price.
pub(crate) fn show_all(rt: &HostRuntime, session: Session) -> anyhow::Result<()> {
    show_figures(
        &FIGURES,
        |name, inputs| show_price(rt, session, name, inputs),
    )
}
