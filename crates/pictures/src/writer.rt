// A writer of codes of one width, the highest bits first: where it writes, how many bytes are written, and the bits that are not written yet.
#[derive(Drop)]
pub(crate) struct BitWriter<'a> {
    body: &'a mut [u8],
    // Kept: an index, since a writer that held only the rest would hold another reference at each step, of which no clause can say what the body ends with.
    at: usize,
    width: u32,
    held: u64,
    bits: u32,
}

pub(crate) mod codes;
