//! A test of subscriptions, by their numbers.

ghost use Rattle.std.specs.Prelude.{◌≡◌, ℕ, Bool};

/// Tells for each subscription, by its number, whether it is asked for.
pub trait Test {
    /// Whether the subscription of this number is asked for.
    ghost passes: { Self → ℕ → Bool };

    /// Whether the subscription of this number is asked for. It takes no memory.
    fn passes(&self, id: u64) -> bool
        ensures value { result ≡ passes self.now id };
}
