// The check of pictures, for C. The library itself is the crate pictures; this one only exports it.
#![tactic(auto)]

ghost use Rattle.pictures.specs.FromC.{Judged};

use pictures::from_c::refusal_number;

// 0 for a sound picture of a key word, mask byte or dial card, otherwise the number of the refusal.
#[unsafe(no_mangle)]
pub extern "C" fn zukhelondo_check(picture: &[u8]) -> u32
    ensures { Judged picture.now result }
{
    refusal_number(picture)
}
