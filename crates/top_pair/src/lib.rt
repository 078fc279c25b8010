// The best pair so far, and whether another wins against it: by its count, then its first word, then its second.
#![tactic(auto)]

ghost use Rattle.std.specs.Prelude.{◌≡◌};
ghost use Rattle.model.specs.Sharing.{beats};
ghost use Rattle.top_pair.specs.Tops.{top_of};

// The best pair so far with its count; a count of 0 is no pair.
// stays: an Option is no plainer, `wins` would first ask for it, and the comparison has it as the count that all others beat.
#[derive(Clone, Copy)]
pub struct Top {
    pub n: usize,
    pub a: u32,
    pub b: u32,
}

pub fn wins(n: usize, a: u32, b: u32, t: Top) -> bool
    ensures { result ≡ beats n a b (top_of t) }
{
    (t.n, a, b) < (n, t.a, t.b)
}
