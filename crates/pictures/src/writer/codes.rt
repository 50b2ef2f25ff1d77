ghost use Rattle.std.specs.Prelude.{◌≡◌, ◌+◌, ◌-◌, ◌*◌, ◌/◌, ◌^◌, ◌<◌, ◌≤◌, length};
ghost use Rattle.sharing.specs.Format.{bytes_of};
ghost use Rattle.pictures.specs.Packing.{CanGive, Gave, HasRoom, NothingWritten, Pushed, bits_made, made};

use crate::writer::BitWriter;

impl<'a> BitWriter<'a> {
    // A writer of codes of so many bits that has written nothing to a body.
    pub(crate) fn new(body: &'a mut [u8], width: u32) -> BitWriter<'a>
        ensures same { result.body.ghost_name ≡ body.entry.ghost_name }
        ensures none { NothingWritten width body.old result }
    {
        BitWriter {
            body,
            at: 0,
            width,
            held: 0,
            bits: 0,
        }
    }

    // Puts out so many bytes, the first of what is held.
    // Kept: `same` is a clause of its own, here and in push, since it speaks of the reference, and the other of what is held and written.
    fn give<const BYTES: usize>(&mut self)
        requires { (BYTES ≤ 4) × CanGive BYTES self.old }
        ensures same { self.new.body.ghost_name ≡ self.old.body.ghost_name }
        ensures gave { Gave self.old self.new }
    {
        self.bits -= 8 * BYTES as u32;
        // Kept: the reader has the same two lines over its own fields, and a function for two lines is no plainer.
        let top = self.held >> self.bits;
        self.held -= top << self.bits;
        let bytes = top.to_be_bytes();
        self.body[self.at..self.at + BYTES].copy_from_slice(&bytes[8 - BYTES..]);
        self.at += BYTES;
    }

    // Writes a code behind what was written. A code of at most 8 bits puts out a byte as soon as there is one, a
    // longer code four bytes as soon as there are four.
    pub(crate) fn push(&mut self, code: u32)
        requires { (self.old.width ≤ 32) × (code < 2 ^ self.old.width) × HasRoom self.old × (bits_made self.old + self.old.width ≤ 8 * length self.old.body.now) }
        ensures same { self.new.body.ghost_name ≡ self.old.body.ghost_name }
        ensures pushed { Pushed self.old self.new code }
    {
        self.held = (self.held << self.width) + u64::from(code);
        self.bits += self.width;
        if self.width <= 8 {
            if self.bits >= 8 {
                self.give::<1>();
            }
        } else if self.bits >= 32 {
            self.give::<4>();
        }
    }

    // Writes what is held, with 0 bits to the end of the last byte.
    pub(crate) fn finish(self)
        requires { HasRoom self × (length self.body.now ≡ (bits_made self + 7) / 8) }
        ensures { self.exit.0.now ≡ bytes_of (length self.entry.body.now) (made self.entry * 2 ^ (8 * length self.entry.body.now - bits_made self.entry)) }
    {
        let word = (self.held << (32 - self.bits)) as u32;
        let bytes = word.to_be_bytes();
        let BitWriter { body, at, .. } = self;
        let behind = &mut body[at..];
        let count = behind.len();
        behind.copy_from_slice(&bytes[..count]);
    }
}
