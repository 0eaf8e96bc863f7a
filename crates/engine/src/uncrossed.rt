// What an uncrossing answers.
use price::Indication;

/// The price, volume and imbalance before the cuts, and how many trades stand in the register.
// The register is memory that the caller lends, and longer than its trades: so their count is answered beside it.
#[derive(Clone, Copy, Debug, PartialEq, Eq)]
pub struct Uncrossed {
    pub told: Indication,
    pub count: usize,
}
