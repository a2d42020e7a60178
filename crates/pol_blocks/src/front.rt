ghost use Rattle.std.specs.Prelude.{◌≡◌, Bool};

/// A test by which an item is sought. It is asked of few items.
pub trait Front<T> {
    ghost passes: { Self → T → Bool };

    /// Whether this item passes.
    fn passes(&self, item: &T) -> bool
        ensures { result ≡ passes self.now item.now };
}
