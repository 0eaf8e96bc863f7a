// Making bodies, and cutting them.
ghost use Rattle.std.specs.Prelude.{◌≡◌, ◌-◌, ◌<◌, ◌≤◌, true, false, MatchOption};
ghost use Rattle.book.specs.Ranges.{in_range};

use crate::orders::{Body, MAX_LIMIT, MAX_QUANTITY, Side};

impl Body {
    /// The body of these, or `None` if the limit or the quantity is out of range.
    pub fn new(side: Side, limit: u32, quantity: u32) -> Option<Body>
        ensures { MatchOption result (in_range limit quantity ≡ false) (λ b. (in_range limit quantity ≡ true) × (b.side ≡ side) × (b.limit ≡ limit) × (b.quantity ≡ quantity)) }
    {
        if !(1..=MAX_LIMIT).contains(&limit) {
            return None;
        }
        if !(1..=MAX_QUANTITY).contains(&quantity) {
            return None;
        }
        Some(Body {
            side,
            limit,
            quantity,
        })
    }

    /// What is left of the body with so many contracts less, or `None` if nothing is.
    pub fn less(self, by: u32) -> Option<Body>
        ensures { MatchOption result (self.quantity ≤ by) (λ b. (by < self.quantity) × (b.side ≡ self.side) × (b.limit ≡ self.limit) × (b.quantity ≡ self.quantity - by)) }
    {
        if by >= self.quantity {
            return None;
        }
        // Each field by its name: what a type with facts takes over by `..` has to be proved again, and the check refuses it.
        Some(Body {
            side: self.side,
            limit: self.limit,
            quantity: self.quantity - by,
        })
    }
}
