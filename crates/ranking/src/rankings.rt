// What a total ranking is.
ghost use Rattle.std.specs.Prelude.{◌≡◌, ℕ, Bool, true, false};

/// Items that are ranked by a price and, where the prices are equal, by a number.
pub trait Ranked {
    /// Which of two items goes before the other.
    ghost before: { Self → Self → Bool };

    /// What an item is ranked by first.
    ghost price: { Self → ℕ };

    /// What tells items of one price apart.
    ghost number: { Self → ℕ };

    fn goes_before(&self, other: &Self) -> bool
        ensures { result ≡ before self.now other.now };

    ghost irreflexive: { (x : Self) → before x x ≡ false };

    ghost transitive: { (x y z : Self) → before x y ≡ true → before y z ≡ true → before x z ≡ true };

    ghost level_price: { (x y : Self) → before x y ≡ false → before y x ≡ false → price x ≡ price y };

    ghost level_number: { (x y : Self) → before x y ≡ false → before y x ≡ false → number x ≡ number y };

    /// Items of one price and number stand alike to every other.
    ghost alike: { (x y z : Self) → price x ≡ price y → number x ≡ number y → before z x ≡ before z y };
}
