// A tool for crews: it reads pictures of cards in hexadecimal, one a line, and prints what each comes to.
#![tactic(auto)]

use crate::line::bytes_of;
use crate::said::say;
use kinds::dial_number::DialNumber;
use kinds::key_word::KeyWord;
use kinds::kind::Kind;
use kinds::mask_byte::MaskByte;
use lines::answer_text;
use pictures::kind::kind_in;
use std::io;
use std::io::BufReader;

mod judged;
mod line;
mod said;
mod told;

// Answers a line of the input. A picture of no known kind is checked as one of key words, and refused.
fn answer(rt: &HostRuntime, number: u64, line: &str) -> io::Result<()> {
    let Some(picture) = bytes_of(rt.alloc(), line)? else {
        return println!(rt; "line {number}: not hexadecimal");
    };
    let picture = picture.as_slice();
    match kind_in(picture) {
        Some(Kind::MaskByte) => say::<MaskByte>(rt, "mask", picture),
        Some(Kind::DialNumber) => say::<DialNumber>(rt, "dial", picture),
        Some(Kind::KeyWord) | None => say::<KeyWord>(rt, "word", picture),
    }
}

fn main(rt: HostRuntime) -> io::Result<()> {
    let input = BufReader::new(rt.alloc(), rt.stdin())?;
    answer_text(rt.alloc(), input, |number, line| answer(&rt, number, line))
}
