// The session record, with the ranges in the type.
ghost use Rattle.session.specs.Ranges.{InTick, InPrice};

/// The largest tick, in centavos.
pub const MAX_TICK: u32 = 1_000;
/// The highest price, in centavos.
pub const MAX_PRICE: u32 = 10_000_000;

/// The tick and the scarcity price of a session, in centavos. No session outside its ranges exists.
// Contracts give its two numbers to the rules, and not the session: the rules say what they say of any two numbers.
#[derive(Clone, Copy)]
pub struct Session {
    /// Prices are whole multiples of it.
    pub tick: u32,
    /// No price above it is answered by the auction.
    pub scarcity: u32,
    ghost ticked: { InTick tick },
    ghost capped: { InPrice scarcity },
}
