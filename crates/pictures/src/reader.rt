// A reader of codes of one width, the highest bits first: the bytes that are still to be read, and the bits that were read and not used.
#[derive(Clone, Copy)]
pub(crate) struct BitReader<'a> {
    rest: &'a [u8],
    width: u32,
    held: u64,
    bits: u32,
}

pub(crate) mod codes;
