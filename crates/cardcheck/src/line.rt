// What a line of the input gives.
ghost use Rattle.std.specs.Prelude.{◌≡◌, IfOk, Some, None, MatchOption};
ghost use Rattle.cardcheck.specs.Lines.{bytes_by, bytes_in, dash, value_of};

use std::alloc::{AllocError, Global};

// The value of a hexadecimal digit.
fn digit(letter: u8) -> Option<u8>
    ensures { result ≡ value_of letter }
{
    let value = char::from(letter).to_digit(16)?;
    u8::try_from(value).ok()
}

// Whether a line is a dash alone, which stands for no bytes.
fn is_dash(line: &str) -> bool
    ensures { result ≡ dash line.now }
{
    matches!(line.as_bytes(), [b'-'])
}

// The bytes that a text writes, two digits each, with spaces before and behind them or not.
fn bytes_by(heap: Global, text: &[u8]) -> Result<Option<Vec<u8>>, AllocError>
    ensures { IfOk result (λ o. MatchOption o (bytes_by text.now ≡ None) (λ v. bytes_by text.now ≡ Some v.items)) }
{
    let mut bytes = Vec::new(heap);
    let mut rest = text;
    // Kept: split and chunks would say it in two loops, no plainer than four patterns.
    loop {
        match rest {
            [] => return Ok(Some(bytes)),
            [b' ', behind @ ..] => rest = behind,
            [upper, lower, behind @ ..] => {
                let (Some(high), Some(low)) = (digit(*upper), digit(*lower)) else {
                    return Ok(None);
                };
                bytes.push(high * 16 + low)?;
                rest = behind;
            }
            [_] => return Ok(None),
        }
    }
}

// The bytes that a line writes, if it is hexadecimal of whole bytes or a dash.
pub fn bytes_of(heap: Global, line: &str) -> Result<Option<Vec<u8>>, AllocError>
    ensures { IfOk result (λ o. MatchOption o (bytes_in line.now ≡ None) (λ v. bytes_in line.now ≡ Some v.items)) }
{
    if is_dash(line) {
        return Ok(Some(Vec::new(heap)));
    }
    bytes_by(heap, line.as_bytes())
}
