// What is answered.
use price::Indication;

/// The answer to a call that is not refused.
#[derive(Clone, Copy, Debug, PartialEq, Eq)]
pub enum Answer {
    /// The number that the order got.
    Entered(u32),
    /// The cut was made.
    Cut,
    /// The order was withdrawn.
    Withdrawn,
    /// What an uncrossing would answer.
    Indicated(Indication),
    /// The uncrossing's price, volume and imbalance before it, and its trades as a part of the log.
    // A part of the log, and no run of its own: room for all trades is made before the first call, so no call can fail for want of it.
    Uncrossed {
        told: Indication,
        /// The place of its first trade in the log.
        first: usize,
        /// How many trades it made.
        count: usize,
    },
}
