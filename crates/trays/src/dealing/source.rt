ghost use Rattle.std.specs.Prelude.{◌≡◌, ◌≤◌, ◌%◌, length};
ghost use Rattle.trays.specs.Laying.{OfSize};

// What the slips of one group are laid from: the key, or none for the all-zero key, and the group's random blocks, each of the size of the key.
#[derive(Drop)]
pub(super) struct Source<'a, E> {
    pub(super) key: Option<&'a [E]>,
    pub(super) own: &'a [E],
    pub(super) size: usize,
    ghost some: { 1 ≤ size },
    ghost sized: { OfSize key size },
    ghost whole: { length own.now % size ≡ 0 },
}

mod slips;
