use plans::plan::Plan;

// What stands at the head of a card's picture, besides the kind.
#[derive(Clone, Copy, PartialEq, Eq, Debug)]
pub struct CardHead {
    pub plan: Plan,
    pub harbour: usize,
    pub issue: u32,
    pub round: u16,
}
