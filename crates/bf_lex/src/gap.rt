//! What stands between tokens.

ghost use Rattle.std.specs.Prelude.{◌≡◌, ◌==◌, IsTrue, MatchOption, position};
ghost use Rattle.bf_lex.specs.Bytes.{is_blank, is_line, line_feed, IsLastGap};
ghost use Rattle.bf_lex.specs.Reading.{EndsLine, IsBehindGap};

fn is_blank(byte: u8) -> bool
    ensures { result ≡ is_blank byte }
{
    byte == b' ' || byte == b'\t' || byte == b'\n' || byte == b'\r'
}

fn line_end(text: &[u8]) -> Option<usize>
    ensures { result ≡ position (λ byte. byte == line_feed) text.now }
{
    text.iter().position(|byte| *byte == b'\n')
}

// The bytes behind the line feed that ends a line, if one does.
fn behind_line(text: &[u8]) -> Option<&[u8]>
    ensures { MatchOption result (IsTrue (is_line text.now))
        (λ behind. EndsLine text.now behind.now) }
{
    let end = line_end(text)?;
    Some(&text[end + 1..])
}

/// The bytes behind the gap at the front of a text, which begin with none, and `None` where
/// nothing but a last gap is left.
pub fn behind_gap(text: &[u8]) -> Option<&[u8]>
    ensures { MatchOption result (IsLastGap text.now) (λ rest. IsBehindGap text.now rest.now) }
{
    let mut rest = text;
    while let [first, behind @ ..] = rest {
        if is_blank(*first) {
            rest = behind;
        } else if let [b'-', b'-', line @ ..] = rest {
            rest = behind_line(line)?;
        } else {
            return Some(rest);
        }
    }
    None
}
