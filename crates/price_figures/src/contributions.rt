// Figures of contributions to the survey.
use crate::refused::show_refused;
use closing::contribute;
use ranking::SurveyPrice;
use session::Session;

/// A place that is not used.
const EMPTY: SurveyPrice = SurveyPrice {
    price: 0,
    contributor: 0,
};

/// One contribution to a run, of which so many places are used.
#[derive(Clone, Copy)]
struct Step {
    used: usize,
    item: SurveyPrice,
}

/// A run of four places.
static SHORT: [Step; 7] = [
    // the higher price first, then the lower, then the higher by a lower code
    Step {
        used: 0,
        item: SurveyPrice {
            price: 10_010,
            contributor: 7,
        },
    },
    Step {
        used: 1,
        item: SurveyPrice {
            price: 10_000,
            contributor: 9,
        },
    },
    Step {
        used: 2,
        item: SurveyPrice {
            price: 10_010,
            contributor: 3,
        },
    },
    // no place is left, or fewer
    Step {
        used: 4,
        item: SurveyPrice {
            price: 10_000,
            contributor: 1,
        },
    },
    Step {
        used: 9,
        item: SurveyPrice {
            price: 10_000,
            contributor: 1,
        },
    },
    // the price is judged before that
    Step {
        used: 4,
        item: SurveyPrice {
            price: 10_005,
            contributor: 1,
        },
    },
    Step {
        used: 4,
        item: SurveyPrice {
            price: 0,
            contributor: 1,
        },
    },
];

/// A run of more than 64 places: the limits of a price, then of a survey.
static LONG: [Step; 7] = [
    Step {
        used: 0,
        item: SurveyPrice {
            price: 0,
            contributor: 1,
        },
    },
    Step {
        used: 0,
        item: SurveyPrice {
            price: 10_000_010,
            contributor: 1,
        },
    },
    Step {
        used: 0,
        item: SurveyPrice {
            price: 10_000_005,
            contributor: 1,
        },
    },
    Step {
        used: 0,
        item: SurveyPrice {
            price: 5,
            contributor: 1,
        },
    },
    Step {
        used: 0,
        item: SurveyPrice {
            price: 10_000_000,
            contributor: 65_535,
        },
    },
    Step {
        used: 63,
        item: SurveyPrice {
            price: 10,
            contributor: 1,
        },
    },
    Step {
        used: 64,
        item: SurveyPrice {
            price: 10,
            contributor: 1,
        },
    },
];

/// A contribution to a run of no places.
const TO_NO_PLACES: Step = Step {
    used: 0,
    item: SurveyPrice {
        price: 10_000,
        contributor: 1,
    },
};

/// Three places used out of rank.
const UNRANKED: [SurveyPrice; 4] = [
    SurveyPrice {
        price: 10_020,
        contributor: 1,
    },
    SurveyPrice {
        price: 10_000,
        contributor: 2,
    },
    SurveyPrice {
        price: 10_010,
        contributor: 3,
    },
    EMPTY,
];

/// A contribution that goes before the first of them and not before the second.
const TO_UNRANKED: Step = Step {
    used: 3,
    item: SurveyPrice {
        price: 10_010,
        contributor: 1,
    },
};

/// One place used, with something in the others.
const LATER: [SurveyPrice; 4] = [
    SurveyPrice {
        price: 10_000,
        contributor: 2,
    },
    SurveyPrice {
        price: 20_000,
        contributor: 5,
    },
    SurveyPrice {
        price: 20_010,
        contributor: 6,
    },
    SurveyPrice {
        price: 20_020,
        contributor: 7,
    },
];

/// A contribution that goes behind that place.
const TO_LATER: Step = Step {
    used: 1,
    item: SurveyPrice {
        price: 10_010,
        contributor: 1,
    },
};

/// Takes the steps and prints what each answers.
fn take_steps(
    rt: &HostRuntime,
    session: Session,
    run: &mut [SurveyPrice],
    steps: &[Step],
) -> anyhow::Result<()> {
    let places = run.len();
    for step in steps {
        let used = step.used;
        let price = step.item.price;
        let contributor = step.item.contributor;
        print!(rt; "survey {used} of {places}, {price} by {contributor}: ")?;
        match contribute(session, run, used, step.item) {
            Ok(more) => println!(rt; "{more}")?,
            Err(why) => show_refused(rt, why)?,
        }
    }
    Ok(())
}

/// Prints every place of a run.
fn show_places(rt: &HostRuntime, run: &[SurveyPrice]) -> anyhow::Result<()> {
    print!(rt; "survey:")?;
    for item in run {
        let price = item.price;
        let contributor = item.contributor;
        print!(rt; " {price}/{contributor}")?;
    }
    println!(rt; "")?;
    Ok(())
}

/// Takes the steps, and prints the run after them.
fn take_and_show(
    rt: &HostRuntime,
    session: Session,
    run: &mut [SurveyPrice],
    steps: &[Step],
) -> anyhow::Result<()> {
    take_steps(rt, session, run, steps)?;
    show_places(rt, run)
}

/// Prints each step in turn, and what it leaves of the short runs.
pub(crate) fn show_all(rt: &HostRuntime, session: Session) -> anyhow::Result<()> {
    take_and_show(rt, session, &mut [EMPTY; 4], &SHORT)?;
    take_steps(rt, session, &mut [EMPTY; 100], &LONG)?;
    take_steps(rt, session, &mut [], &[TO_NO_PLACES])?;
    let mut unranked = UNRANKED;
    take_and_show(rt, session, &mut unranked, &[TO_UNRANKED])?;
    let mut later = LATER;
    take_and_show(rt, session, &mut later, &[TO_LATER])
}
