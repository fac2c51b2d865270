// Values of which one comes before another.
ghost use Rattle.std.specs.Prelude.{◌≡◌, true, false};
ghost use Rattle.lrp_holdings.specs.Ranked.{itself_by, leads_by, onward_by};

/// What is held in an order: of each two values one comes first, or both come together.
pub trait Ranked {
    /// The first value does not come after the second one.
    ghost leads: { Self → Self → Type 0 };

    /// Whether this value comes before the other one, or with it.
    fn leads(&self, other: &Self) -> bool
        ensures to { result ≡ true → leads self.now other.now }
        ensures from { result ≡ false → leads other.now self.now };

    ghost itself: { (a : Self) → leads a a };

    ghost onward: { (a b c : Self) → leads a b → leads b c → leads a c };
}

/// What is no value comes after each value.
impl<T: Ranked> Ranked for Option<T> {
    ghost leads = { leads_by T.leads };

    ghost itself = { itself_by T.leads T.itself };

    ghost onward = { onward_by T.leads T.onward };

    fn leads(&self, other: &Self) -> bool {
        match (self, other) {
            (Some(value), Some(other)) => value.leads(other),
            (None, Some(_)) => false,
            (_, None) => true,
        }
    }
}
