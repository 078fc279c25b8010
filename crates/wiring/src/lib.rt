// One pass over the signals of a body: whether each names something present, and whether the network is sorted.
#![tactic(auto)]

ghost use Rattle.std.specs.Prelude.{◌≡◌, ◌+◌, ◌/◌, ◌≤◌, length};
ghost use Rattle.model.specs.Normal.{most};
ghost use Rattle.model.specs.Image.{words, end_from};
ghost use Rattle.wiring.specs.Reach.{reach_of, reach_from, wiring_from};

use signal::Signal;

// Whether each signal names a constant, an input or a node; and whether each gate stands behind what it names.
// stays: two flags that are told apart later; four variants, or a Result of one of them, are no plainer.
#[derive(Clone, Copy)]
pub struct Wiring {
    pub named: bool,
    pub sorted: bool,
}

// How many nodes there must be for a signal to name something: v + 1 for node v, none for a constant or an input, and more
// than there can be for an absent input.
#[tactic(auto, using(crate::proofs::Wires::signs))]
fn reach_of(s: Signal, inputs: u32) -> u32
    ensures { result ≡ reach_of inputs s.a }
{
    if !s.is_input() {
        return s.ind();
    }
    if s.input() < inputs {
        return 0;
    }
    0xFFFF_FFFF
}

// The greatest reach of the `count` signals from the word `from` on.
#[tactic(auto, using(crate::proofs::Wires::lists))]
pub fn reach(body: &[u8], from: usize, count: usize, inputs: u32) -> u32
    requires { from + count ≤ length body.now / 4 }
    ensures { result ≡ reach_from inputs count (words body.now) from }
{
    let mut top: u32 = 0;
    for at in from..from + count {
        let s = Signal {
            a: words::nth(body, at),
        };
        top = top.max(reach_of(s, inputs));
    }
    top
}

// The records' inputs. A combinational gate reaches no further than its own number, a flip-flop anywhere.
pub fn of_records(body: &[u8], inputs: u32, nodes: u32) -> Wiring
    requires { end_from nodes (words body.now) 0 ≤ length body.now / 4 }
    ensures { result ≡ wiring_from inputs nodes 0 nodes (words body.now) 0 }
{
    let mut at: usize = 0;
    let mut named = true;
    let mut sorted = true;
    for v in 0..nodes {
        let h = words::nth(body, at);
        let r = reach(body, at + 1, (h / 256) as usize, inputs);
        named &= r <= nodes;
        sorted &= kinds::is_flip_flop(kinds::kind_of(h % 256)) | (r <= v);
        at += records::size_of(h);
    }
    Wiring { named, sorted }
}
