// The order of a shelf: which of two entries goes before the other.
ghost use Rattle.std.specs.Prelude.{◌≡◌, ℕ, Bool};
ghost use Rattle.shelf.specs.Order.{Total};

// An order tells any two ranked entries with different keys apart, so no two ways to line them up are right.
pub trait Order<T> {
    ghost key: { Self → T → ℕ };

    ghost ranked: { Self → T → Type 0 };

    ghost before: { Self → T → T → Bool };

    // Does the one come off before the other?
    fn goes_before(&self, one: &T, other: &T) -> bool
        ensures { result ≡ before self.now one.now other.now };

    ghost total: { (order : Self) → Total (key order) (ranked order) (before order) };
}
