// What the benchmark calls, for each kind.
// Kept: nine functions of one call each, since C knows no generic function, and the benchmark calls each by its name.
ghost use Rattle.kinds.specs.Kinds.{byte, dial, word};
ghost use Rattle.pictures.specs.Reading.{Judges};
ghost use Rattle.picturebench.specs.Work.{Copies, Reads};

use crate::work::{copied, loaded};
use kinds::dial_number::DialNumber;
use kinds::key_word::KeyWord;
use kinds::mask_byte::MaskByte;
use pictures::check::refusal;

#[unsafe(no_mangle)]
pub extern "C" fn picturebench_check_word(picture: &[u8]) -> u32
    ensures { Judges (λ (e : KeyWord). (word e.value).number) 1 32 picture.now result }
{
    refusal::<KeyWord>(picture)
}

#[unsafe(no_mangle)]
pub extern "C" fn picturebench_load_word(picture: &[u8], at: usize) -> u32
    ensures { Reads (λ (e : KeyWord). (word e.value).number) 1 32 picture.now 1008 at result }
{
    loaded::<KeyWord>(picture, at)
}

#[unsafe(no_mangle)]
pub extern "C" fn picturebench_write_word(picture: &[u8], times: u32, place: &mut [u8]) -> u32
    ensures { Copies picture.now place.new times result }
{
    copied::<KeyWord>(picture, times, place)
}

#[unsafe(no_mangle)]
pub extern "C" fn picturebench_check_mask(picture: &[u8]) -> u32
    ensures { Judges (λ (e : MaskByte). (byte e.value).number) 2 8 picture.now result }
{
    refusal::<MaskByte>(picture)
}

#[unsafe(no_mangle)]
pub extern "C" fn picturebench_load_mask(picture: &[u8], at: usize) -> u32
    ensures { Reads (λ (e : MaskByte). (byte e.value).number) 2 8 picture.now 1008 at result }
{
    loaded::<MaskByte>(picture, at)
}

#[unsafe(no_mangle)]
pub extern "C" fn picturebench_write_mask(picture: &[u8], times: u32, place: &mut [u8]) -> u32
    ensures { Copies picture.now place.new times result }
{
    copied::<MaskByte>(picture, times, place)
}

#[unsafe(no_mangle)]
pub extern "C" fn picturebench_check_dial(picture: &[u8]) -> u32
    ensures { Judges (λ (e : DialNumber). (dial e.held).number) 3 14 picture.now result }
{
    refusal::<DialNumber>(picture)
}

#[unsafe(no_mangle)]
pub extern "C" fn picturebench_load_dial(picture: &[u8], at: usize) -> u32
    ensures { Reads (λ (e : DialNumber). (dial e.held).number) 3 14 picture.now 1008 at result }
{
    loaded::<DialNumber>(picture, at)
}

#[unsafe(no_mangle)]
pub extern "C" fn picturebench_write_dial(picture: &[u8], times: u32, place: &mut [u8]) -> u32
    ensures { Copies picture.now place.new times result }
{
    copied::<DialNumber>(picture, times, place)
}
