//! The code of a line, and its tokens, one after another.
ghost use Rattle.std.specs.Prelude.{◌≡◌, ◌+◌, ◌<◌, ◌≤◌, false, length, IfSome, ◌∷◌};
ghost use Rattle.std.specs.List.{prefix_len};
ghost use Rattle.asm_lines.specs.Tokens.{is_word_byte, is_blank, mark, is_code, code_of, tokens_of, cut_of};
ghost use Rattle.asm_lines.specs.Code.{seen_token, seen_next};

/// A token of a line.
#[derive(Clone, Copy)]
pub(crate) enum Token<'a> {
    /// A run of letters, digits and `_`.
    Word(&'a [u8]),
    /// `&` and the run directly after it, which may be empty.
    Hex(&'a [u8]),
    Colon,
    Comma,
    Hash,
    Left,
    Right,
    Low,
    High,
    Plus,
    /// A byte of any other kind.
    Other,
}

// Returns the number of bytes before the comment or the line feed, or of all without either.
fn code_length(line: &[u8]) -> usize
    ensures value { result ≡ prefix_len is_code line.now }
    ensures within { result ≤ length line.now }
{
    line.iter()
        .take_while(|b| **b != b'\n' && **b != b';')
        .count()
}

/// Returns a line up to its comment or its line feed.
pub(crate) fn code_of(line: &[u8]) -> &[u8]
    ensures { result.now ≡ code_of line.now }
{
    &line[..code_length(line)]
}

fn is_word_byte(b: u8) -> bool
    ensures { result ≡ is_word_byte b }
{
    b.is_ascii_alphanumeric() || b == b'_'
}

fn is_blank(b: u8) -> bool
    ensures { result ≡ is_blank b }
{
    b == b' ' || b == b'\t'
}

// Returns the token of a single byte.
fn mark<'a>(b: u8) -> Token<'a>
    ensures { seen_token result ≡ mark b }
{
    match b {
        b':' => Token::Colon,
        b',' => Token::Comma,
        b'#' => Token::Hash,
        b'(' => Token::Left,
        b')' => Token::Right,
        b'<' => Token::Low,
        b'>' => Token::High,
        b'+' => Token::Plus,
        _ => Token::Other,
    }
}

fn run_length(code: &[u8]) -> usize
    ensures value { result ≡ prefix_len is_word_byte code.now }
    ensures within { result ≤ length code.now }
{
    code.iter().take_while(|b| is_word_byte(**b)).count()
}

// Returns the run at the front of code, which may be empty, and the code after it.
fn run_and_rest(code: &[u8]) -> (&[u8], &[u8])
    ensures run { (cut_of code.now).run ≡ result.0.now }
    ensures rest { (cut_of code.now).tokens ≡ tokens_of result.1.now }
    ensures split { length result.0.now + length result.1.now ≡ length code.now }
{
    let end = run_length(code);
    (&code[..end], &code[end..])
}

// Returns the token at the front of code, which begins with `first`, and the code after it.
fn token_at<'a>(first: u8, behind: &'a [u8], code: &'a [u8]) -> (Token<'a>, &'a [u8])
    requires front { code.now ≡ first ∷ behind.now }
    requires not_blank { is_blank first ≡ false }
    ensures tokens { tokens_of code.now ≡ seen_token result.0 ∷ tokens_of result.1.now }
    ensures shorter { length result.1.now < length code.now }
{
    if is_word_byte(first) {
        let (run, rest) = run_and_rest(code);
        (Token::Word(run), rest)
    } else if first == b'&' {
        let (run, rest) = run_and_rest(behind);
        (Token::Hex(run), rest)
    } else {
        (mark(first), behind)
    }
}

/// Returns the first token of code, and the code after it. Returns `None` if no token is left.
pub(crate) fn next_token<'a>(code: &'a [u8]) -> Option<(Token<'a>, &'a [u8])>
    ensures tokens { tokens_of code.now ≡ seen_next result }
    ensures shorter { IfSome result (λ r. length r.1.now < length code.now) }
{
    let mut rest = code;
    while let [first, behind @ ..] = rest {
        if !is_blank(*first) {
            return Some(token_at(*first, behind, rest));
        }
        rest = behind;
    }
    None
}
