// The words of a line: what stands between spaces, tabs and carriage returns.
ghost use Rattle.std.specs.Prelude.{◌≡◌, [], ◌∷◌, MatchOption};
ghost use Rattle.words.specs.Split.{is_space, words_of, no_words};

fn is_space(b: u8) -> bool
    ensures { result ≡ is_space b }
{
    b == b' ' || b == b'\t' || b == b'\r'
}

// The first word of a line and what follows it, if there is a word.
pub fn next_word(line: &[u8]) -> Option<(&[u8], &[u8])>
    ensures { MatchOption result (words_of line.now ≡ []) (λ p. words_of line.now ≡ p.0.now ∷ words_of p.1.now) }
{
    let start = line.iter().position(|b| !is_space(*b))?;
    let rest = &line[start..];
    let end = rest.iter().position(|b| is_space(*b)).unwrap_or(rest.len());
    Some(rest.split_at(end))
}

// Whether there is no word.
pub fn at_end(line: &[u8]) -> bool
    ensures { result ≡ no_words (words_of line.now) }
{
    next_word(line).is_none()
}
