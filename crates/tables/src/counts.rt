// How much of an area's tables a network fills; it travels beside the area, by value.
#[derive(Clone, Copy)]
pub struct Counts {
    pub inputs: usize,
    pub nodes: usize,
    pub outs: usize,
}
