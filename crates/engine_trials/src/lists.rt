// Generated lists of calls, on both makes and on the calculator.
use crate::tallies::{Kind, Outcome};
use book::{Live, OrderBook};
use calculator::{PlainBook, PlainOrder, PlainRefusal, PlainReply, Source, order};
use engine::{Journal, run};
use ladder::Ladder;
use note::Trade;
use price::Indication;
use session::Session;
use std::alloc::{AllocError, Global};
use table::Table;
use trading::{Answer, Call};
use trials::Make;

/// How many calls a list has.
const CALLS: u32 = 30;
/// A trade that no uncrossing writes, to see which places of a register stay.
pub(crate) const UNWRITTEN: Trade = Trade {
    buy: 0,
    sell: 0,
    quantity: 0,
};

/// What the calculator says of a list.
#[derive(Drop)]
struct Expected {
    /// What each call is answered; of a refusal its number.
    // The number alone: the calculator's refusals and the engine's are different enums, and what they share is their numbers.
    answers: Vec<Result<Answer, u8>>,
    /// The trades of all uncrossings.
    log: Vec<Trade>,
    register: Vec<Trade>,
    book: PlainBook,
}

fn random_call(source: &mut Source) -> Call {
    match source.below(16) {
        0..=8 => Call::Entry {
            side: source.side(),
            quantity: source.below(6),
            price: if source.below(40) == 0 {
                10_000_001
            } else {
                source.below(25)
            },
        },
        9 | 10 => Call::Cut {
            number: source.below(12),
            quantity: source.below(5),
        },
        11 => Call::Withdrawal {
            number: source.below(12),
        },
        12 | 13 => Call::Indication,
        _ => Call::Uncrossing,
    }
}

fn random_calls(heap: Global, source: &mut Source) -> Result<Vec<Call>, AllocError> {
    (0..CALLS).map(|_| random_call(source)).collect(heap)
}

/// A register of so many places in which nothing is written.
fn blank(heap: Global, places: usize) -> Result<Vec<Trade>, AllocError> {
    vec![in heap; UNWRITTEN; places]
}

/// Writes trades over the first places of a register.
fn write_over(register: &mut [Trade], trades: &[Trade]) {
    for (place, trade) in register.iter_mut().zip(trades.iter()) {
        *place = *trade;
    }
}

fn ask(
    heap: Global,
    book: &mut PlainBook,
    call: Call,
    places: usize,
) -> Result<Result<PlainReply, PlainRefusal>, AllocError> {
    match call {
        Call::Entry {
            side,
            quantity,
            price,
        } => book.entry(side, quantity, price),
        Call::Cut { number, quantity } => Ok(book.cut(number, quantity)),
        Call::Withdrawal { number } => Ok(book.withdrawal(number)),
        Call::Indication => Ok(book.indication()),
        Call::Uncrossing => book.uncrossing(heap, places),
    }
}

impl Expected {
    /// Adds the trades of the last uncrossing, and says where they stand in the log.
    fn add_trades(&mut self, told: Indication) -> Result<Answer, AllocError> {
        let trades = &self.book.trades;
        let first = self.log.len();
        write_over(&mut self.register, trades);
        self.log.extend(trades.iter().copied())?;
        Ok(Answer::Uncrossed {
            told,
            first,
            count: trades.len(),
        })
    }

    /// What is answered where the calculator replies so.
    fn answer(&mut self, reply: PlainReply) -> Result<Answer, AllocError> {
        match reply {
            PlainReply::Entered(number) => Ok(Answer::Entered(number)),
            PlainReply::Cut => Ok(Answer::Cut),
            PlainReply::Withdrawn => Ok(Answer::Withdrawn),
            PlainReply::Indicated(told) => Ok(Answer::Indicated(told)),
            PlainReply::Uncrossed(told) => self.add_trades(told),
        }
    }
}

fn expect(
    heap: Global,
    book: PlainBook,
    calls: &[Call],
    places: usize,
) -> Result<Expected, AllocError> {
    let mut expected = Expected {
        answers: Vec::new(heap),
        log: Vec::new(heap),
        register: blank(heap, places)?,
        book,
    };
    for call in calls {
        let answer = match ask(heap, &mut expected.book, *call, places)? {
            Ok(reply) => Ok(expected.answer(reply)?),
            Err(why) => Err(u8::from(why)),
        };
        expected.answers.push(answer)?;
    }
    Ok(expected)
}

/// Whether the answers are the calculator's, and refusals have its numbers.
fn answers_agree(journal: &Journal, expected: &Expected) -> bool {
    journal
        .answers
        .iter()
        .map(|answer| answer.map_err(u8::from))
        .eq(expected.answers.iter().copied())
}

/// Whether what a book finds of a number is what the calculator holds; an order that has left holds 0.
fn order_agrees(held: Option<Live>, plain: PlainOrder) -> bool {
    match held {
        Some(Live { body, .. }) => order(body.side, body.quantity, body.limit) == plain,
        None => plain.quantity == 0,
    }
}

/// Whether a book holds the calculator's orders and no others.
fn book_agrees<B: OrderBook>(book: &B, plain: &PlainBook) -> bool {
    let agree = (1u32..=u32::MAX)
        .zip(plain.orders.iter())
        .all(|(number, plain)| order_agrees(book.find(number), *plain));
    agree
        && book.last() as usize == plain.orders.len()
        && book.find(book.last().saturating_add(1)).is_none()
}

/// Whether a make of so many places does something else than the calculator.
fn is_apart<B: Make>(
    heap: Global,
    places: usize,
    session: Session,
    calls: &[Call],
    expected: &Expected,
) -> Result<bool, AllocError> {
    let mut book = B::fresh(heap, places)?;
    let mut register = blank(heap, expected.register.len())?;
    let journal = run(heap, &mut book, session, calls, &mut register)?;
    let agrees = answers_agree(&journal, expected)
        && journal.trades == expected.log
        && register == expected.register
        && book_agrees(&book, &expected.book);
    Ok(!agrees)
}

/// One generated list, on both makes.
fn try_list(heap: Global, source: &mut Source) -> Result<Outcome, AllocError> {
    let tick = source.below(3) + 1;
    let scarcity = source.below(30) + 1;
    let session = Session::open(tick, scarcity).unwrap();
    let places = source.below(7) as usize + 2;
    let room = source.below(5) as usize;
    let calls = random_calls(heap, source)?;
    let plain = PlainBook::new(heap, places, tick, scarcity);
    let expected = expect(heap, plain, &calls, room)?;
    let table_apart = is_apart::<Table>(heap, places, session, &calls, &expected)?;
    let ladder_apart = is_apart::<Ladder>(heap, places, session, &calls, &expected)?;
    let kinds = expected.answers.iter().map(|answer| answer.map(Kind::from));
    Ok(Outcome {
        answers: kinds.collect(heap)?,
        trades: expected.log.len(),
        table_apart,
        ladder_apart,
    })
}

/// So many generated lists.
pub(crate) fn try_lists(heap: Global, seed: u64, lists: u32) -> Result<Vec<Outcome>, AllocError> {
    let mut source = Source::new(seed);
    (0..lists)
        .map(|_| try_list(heap, &mut source))
        .try_collect(heap)
}
