// Lines of the input: which are passed over, and each of the others handed to a caller with its number.
#![tactic(auto)]

ghost use Rattle.std.specs.Prelude.{◌≡◌, OnOk, IfSome};
ghost use Rattle.lines.specs.Lines.{passed_over, AnswersText, Shown};

use std::alloc::Global;
use std::io::BufRead;
use std::{io, iter};

// Whether a line is empty or a comment.
pub fn is_passed_over(line: &str) -> bool
    ensures { result ≡ passed_over line.now }
{
    matches!(line.as_bytes(), [] | [b'#', ..])
}

// Hands each line of a text that is not passed over to the caller, with its number from 1. A number that cannot rise stays.
pub fn answer_text<B: BufRead + Drop, F: FnMut(u64, &str) -> io::Result<()>>(
    heap: Global,
    text: B,
    mut answer: F,
) -> io::Result<()>
    requires { F.IsAlwaysCallable answer }
    ensures { OnOk result (IfSome (B.remaining text) (λ bytes. AnswersText (Shown F.step) answer bytes)) }
{
    let numbers = (1u64..).chain(iter::repeat(u64::MAX));
    for (number, line) in numbers.zip(text.lines(heap)) {
        let line = line?;
        if !is_passed_over(line.as_str()) {
            answer(number, line.as_str())?;
        }
    }
    Ok(())
}

#[cfg(test)]
mod tests {
    use crate::answer_text;
    use std::test::Fail;

    #[test]
    fn lines_that_are_not_passed_over(rt: HostRuntime) -> Result<(), Fail> {
        let mut numbers = 0u64;
        let mut letters = 0usize;
        answer_text(
            rt.alloc(),
            "one\n# two\n\nfour".as_bytes(),
            |number, line| {
                numbers = numbers.wrapping_mul(10).wrapping_add(number);
                letters = letters.wrapping_add(line.len());
                Ok(())
            },
        )?;
        assert_eq!(rt; numbers, 14);
        assert_eq!(rt; letters, 7);
        Ok(())
    }
}
