ghost use Rattle.std.specs.Prelude.{◌≡◌, ◌<◌, ◌≤◌, length};
ghost use Rattle.pictures.specs.Unpacking.{BetweenCodes, ElementRead, NextRead, NothingRead, ReadOn, bits_left};

use crate::fault::{At, CardFault};
use crate::reader::BitReader;
use kinds::card::Card;

impl<'a> BitReader<'a> {
    // A reader of codes of so many bits that has read nothing of a body.
    pub(crate) fn new(body: &'a [u8], width: u32) -> BitReader<'a>
        ensures { NothingRead width body.now result }
    {
        BitReader {
            rest: body,
            width,
            held: 0,
            bits: 0,
        }
    }

    // Kept: `BetweenCodes` is asked for by name and is no ghost field, since in the midst of a step it does not hold.

    // Reads on for a code: four bytes where a code is longer than a byte and there are four, otherwise one.
    fn read_on(&mut self)
        requires { BetweenCodes self.old × (1 ≤ length self.old.rest.now) }
        ensures { ReadOn self.old self.new }
    {
        // Kept: two arms, of which each names the bytes that it takes; by a size they would be cut out and put together.
        match self.rest {
            [first, second, third, fourth, behind @ ..] if self.width > 8 => {
                let word = u32::from_be_bytes([*first, *second, *third, *fourth]);
                self.held = (self.held << 32) + u64::from(word);
                self.bits += 32;
                self.rest = behind;
            }
            [first, behind @ ..] => {
                self.held = (self.held << 8) + u64::from(*first);
                self.bits += 8;
                self.rest = behind;
            }
            [] => unreachable!(),
        }
    }

    // The next code.
    fn next(&mut self) -> u32
        requires { BetweenCodes self.old × (self.old.width ≤ bits_left self.old) }
        ensures { NextRead self.old result self.new }
    {
        while self.bits < self.width {
            self.read_on();
        }
        self.bits -= self.width;
        let code = self.held >> self.bits;
        self.held -= code << self.bits;
        code as u32
    }

    // The element of the next code, or the fault of a code that is no element's, at this slip.
    pub(crate) fn element<C: Card>(&mut self, slip: usize) -> Result<C, CardFault>
        requires { BetweenCodes self.old × (self.old.width ≤ bits_left self.old) }
        ensures { ElementRead C.Card.coded slip self.old result self.new }
    {
        let code = self.next();
        let element = C::from_code(code).map_err(|fault| At { place: slip, fault })?;
        Ok(element)
    }

    // What is held, which is the bits behind the codes once every byte is read.
    pub(crate) fn held(&self) -> u64
        ensures { result ≡ self.now.held }
    {
        self.held
    }
}
