//! The lines of a text.
ghost use Rattle.std.specs.Prelude.{◌≡◌, ◌<◌, ◌≤◌, ◌==◌, not, length, ◌∷◌};
ghost use Rattle.std.specs.List.{prefix_len};
ghost use Rattle.digits.specs.Lines.{text_lines};

// Returns the number of bytes before the first line feed, or of all bytes if there is none.
fn length_before_feed(text: &[u8]) -> usize
    ensures value { result ≡ prefix_len (λ b. not (b == 10)) text.now }
    ensures within { result ≤ length text.now }
{
    text.iter().take_while(|b| **b != b'\n').count()
}

/// Returns the first line of a text, with its line feed if it has one, and the text after it. The
/// text must not be empty.
pub fn first_line(text: &[u8]) -> (&[u8], &[u8])
    requires { 0 < length text.now }
    ensures lines { text_lines text.now ≡ result.0.now ∷ text_lines result.1.now }
    ensures shorter { length result.1.now < length text.now }
{
    let before = length_before_feed(text);
    if before < text.len() {
        text.split_at(before + 1)
    } else {
        (text, &text[before..])
    }
}
