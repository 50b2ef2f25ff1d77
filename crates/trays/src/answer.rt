// What became of a discarded note's draw.
#[derive(Clone, Copy, PartialEq, Eq, Debug)]
pub enum Discarded {
    // It was open: the sheet is wiped and the draw closed.
    Wiped,
    // It was not open: nothing was altered.
    Stale,
}
