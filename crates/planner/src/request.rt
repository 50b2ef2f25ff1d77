// What a line of the input asks for.
ghost use Rattle.std.specs.Prelude.{◌≡◌, ◌⊎◌, [], ◌∷◌, MatchOption};
ghost use Rattle.planner.specs.Lines.{written, Asks, Fewer, IsNumber, More, Unclear, Words};

// The three numbers of a plan, as a line gives them.
#[derive(Clone, Copy)]
pub struct Request {
    pub harbours: usize,
    pub threshold: usize,
    pub components: usize,
}

// The words of a line, if there are three.
fn three_words(line: &str) -> Option<(&str, &str, &str)>
    ensures { MatchOption result (Fewer line.now ⊎ More line.now) (λ w. Words line.now (w.0.now ∷ w.1.now ∷ w.2.now ∷ [])) }
{
    let mut words = line.split_whitespace();
    let three = (words.next()?, words.next()?, words.next()?);
    // Kept: with `is_none` and `then_some` the proof did not close.
    match words.next() {
        None => Some(three),
        Some(_) => None,
    }
}

// The number that a word writes, if it is one of 64 bits.
fn number(word: &str) -> Option<usize>
    ensures { MatchOption result (IsNumber word.now → ⊥) (λ n. IsNumber word.now × (n ≡ written word.now)) }
{
    word.parse::<usize>().ok()
}

impl Request {
    // The request of a line, if it is three numbers.
    pub fn read(line: &str) -> Option<Request>
        ensures { MatchOption result (Unclear line.now) (λ q. Asks line.now q) }
    {
        let (first, second, third) = three_words(line)?;
        Some(Request {
            harbours: number(first)?,
            threshold: number(second)?,
            components: number(third)?,
        })
    }
}
