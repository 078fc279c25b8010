// Why something is refused: a line of document 01's table each, and its number.
#![tactic(auto)]

ghost use Rattle.std.specs.Prelude.{◌≡◌};
ghost use Rattle.refusals.specs.Numbers.{number};

#[derive(Clone, Copy, PartialEq, Eq)]
pub enum Refusal {
    // "either of the two work areas is below 16,384 words"
    Areas = 1,
    // "image below 16 bytes; D below 16, not a multiple of 4, or past the start"
    Frame = 2,
    // "over 1,024 inputs, 512 nodes or 64 outputs"
    Limits = 3,
    // "a record breaks the layout above, or the records do not end where the outputs begin"
    Layout = 4,
    // "over 2,048 gate inputs in all"
    GateInputs = 5,
    // "a signal names an absent input or node"
    Absent = 6,
    // "not sorted"
    Unsorted = 7,
    // "a combinational loop"
    Looped = 8,
    // "an And2, And3 or n-ary And of two or more inputs lists a signal twice"
    Repeated = 9,
    // "gate inputs after flattening, before cleanup, pass 2,048"
    Flattened = 10,
    // "pair places pass 4,096"
    Pairs = 11,
    // "with every pair and join of the pass appended .. over 512 nodes or 2,048 gate inputs"
    Grown = 12,
    // "a lent result buffer is shorter than the result"
    Room = 13,
    // "an input byte or a flip-flop's state byte above 1"
    Bytes = 14,
}

impl From<Refusal> for u32 {
    ghost from_gives = { λ r n. n ≡ number r };

    fn from(r: Refusal) -> u32 {
        r as u32
    }
}
