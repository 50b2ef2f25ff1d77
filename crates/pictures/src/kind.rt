ghost use Rattle.pictures.specs.Reading.{NamesKind};

use kinds::kind::Kind;

// The kind that a picture's first byte names, where it names a known one.
pub fn kind_in(picture: &[u8]) -> Option<Kind>
    ensures { NamesKind picture.now result }
{
    let first = *picture.first()?;
    Kind::try_from(first % 16).ok()
}
