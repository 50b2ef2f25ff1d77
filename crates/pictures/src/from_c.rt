ghost use Rattle.pictures.specs.FromC.{Judged};

use crate::check::refusal;
use crate::kind::kind_in;
use kinds::dial_number::DialNumber;
use kinds::key_word::KeyWord;
use kinds::kind::Kind;
use kinds::mask_byte::MaskByte;

// 0 for a sound picture of a key word, mask byte or dial card, otherwise the number of the refusal.
// A picture of no known kind is none of key words, so that check gives 20, 21 or 22.
pub fn refusal_number(picture: &[u8]) -> u32
    ensures { Judged picture.now result }
{
    match kind_in(picture).unwrap_or(Kind::KeyWord) {
        Kind::KeyWord => refusal::<KeyWord>(picture),
        Kind::MaskByte => refusal::<MaskByte>(picture),
        Kind::DialNumber => refusal::<DialNumber>(picture),
    }
}
