// A gate's inputs: where they stand in a network, and the values by which they are read.
ghost use Rattle.signal_values.specs.Signals.{Reads};

#[derive(Clone, Copy)]
pub struct Inputs<'a> {
    pub from: &'a [u32],
    pub to: &'a [u32],
    pub first: usize,
    pub count: usize,
    ghost read: { Reads from.now to.now first count },
}
