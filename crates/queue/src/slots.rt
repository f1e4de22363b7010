// Slots of a queue.
ghost use Rattle.std.specs.Prelude.{◌≡◌, ℕ};

// An element with a key.
pub trait Keyed {
    ghost number: { Self → ℕ };

    fn key(&self) -> u64
        ensures { result ≡ number self.now };
}

// A place in a queue: an element, and the key that it was stored under.
#[derive(Clone, Copy)]
pub struct Slot<E> {
    pub key: u64,
    pub element: E,
}
