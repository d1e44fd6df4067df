// The words of a line: the longest runs of bytes that are no blanks.
ghost use Rattle.std.specs.Prelude.{◌≡◌, ◌∷◌, [], MatchOption};
ghost use Rattle.commands.specs.Words.{blank, words};

// Whether a byte parts words.
fn is_blank(byte: u8) -> bool
    ensures { result ≡ blank byte }
{
    matches!(byte, b' ' | b'\t' | b'\r')
}

// The first word of a line, and what follows it, if the line has words.
pub fn split_word(line: &[u8]) -> Option<(&[u8], &[u8])>
    ensures { MatchOption result (words line.now ≡ []) (λ split. words line.now ≡ split.0.now ∷ words split.1.now) }
{
    let start = line.iter().position(|byte| !is_blank(*byte))?;
    let line = &line[start..];
    let end = line
        .iter()
        .position(|byte| is_blank(*byte))
        .unwrap_or(line.len());
    Some((&line[..end], &line[end..]))
}
