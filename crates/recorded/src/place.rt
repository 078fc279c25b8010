// What is named by its place in an order, counted from 0, or by the place itself.
ghost use Rattle.std.specs.Prelude.{◌≡◌, ℕ};

pub trait Place {
    ghost at: { Self → ℕ };

    fn place(self) -> usize
        ensures { result ≡ at self };
}

impl Place for usize {
    ghost at = { λ k. k };

    fn place(self) -> usize {
        self
    }
}
