//! The positional words: those that are neither options nor their values.
ghost use Rattle.std.specs.Prelude.{◌≡◌, map, option_map, MatchOption, false, [], ◌∷◌, string_bytes};
ghost use Rattle.cmd_words.specs.Alone.{is_dashed, is_flag, takes_value, is_name, alone, two, three, four};

// Returns true if a word begins with `-`.
fn is_dashed(word: &str) -> bool
    ensures { result ≡ is_dashed word.now }
{
    match word.as_bytes().first() {
        Some(b) => *b == b'-',
        None => false,
    }
}

/// Returns true for an option that is one word, with no value after it.
pub(crate) fn is_flag(word: &str) -> bool
    ensures { result ≡ is_flag word.now }
{
    word == "--no-tube" || word == "--counts"
}

/// Returns true for a key, with its value after it: every other word that begins with `-`.
pub(crate) fn takes_value(word: &str) -> bool
    ensures { result ≡ takes_value word.now }
{
    !is_flag(word) && is_dashed(word)
}

/// Returns true if a word isn't empty and doesn't begin with `-`.
pub(crate) fn is_name(word: &str) -> bool
    ensures { result ≡ is_name word.now }
{
    match word.as_bytes().first() {
        Some(b) => *b != b'-',
        None => false,
    }
}

/// Returns the first positional word, and the words after it.
fn next_alone(words: &[String]) -> Option<(&str, &[String])>
    ensures { let all = alone false (map string_bytes words.now) in
        MatchOption result (all ≡ []) (λ p. all ≡ p.0.now ∷ alone false (map string_bytes p.1.now)) }
{
    let mut skip = false;
    for (i, word) in words.iter().enumerate() {
        if skip {
            skip = false;
        } else if takes_value(word.as_str()) {
            skip = true;
        } else if !is_flag(word.as_str()) {
            return Some((word.as_str(), &words[i + 1..]));
        }
    }
    None
}

/// Returns the positional words, if there are two.
pub(crate) fn two_alone(words: &[String]) -> Option<(&str, &str)>
    ensures { option_map (λ p. (p.0.now, p.1.now)) result ≡ two (alone false (map string_bytes words.now)) }
{
    let (first, rest) = next_alone(words)?;
    let (second, rest) = next_alone(rest)?;
    match next_alone(rest) {
        None => Some((first, second)),
        Some(_) => None,
    }
}

/// Returns the positional words, if there are three.
pub(crate) fn three_alone(words: &[String]) -> Option<(&str, &str, &str)>
    ensures { let all = alone false (map string_bytes words.now) in
        option_map (λ p. (p.0.now, p.1.now, p.2.now)) result ≡ three all }
{
    let (first, rest) = next_alone(words)?;
    let (second, rest) = next_alone(rest)?;
    let (third, rest) = next_alone(rest)?;
    match next_alone(rest) {
        None => Some((first, second, third)),
        Some(_) => None,
    }
}

/// Returns the positional words, if there are four.
pub(crate) fn four_alone(words: &[String]) -> Option<(&str, &str, &str, &str)>
    ensures { let all = alone false (map string_bytes words.now) in
        option_map (λ p. (p.0.now, p.1.now, p.2.now, p.3.now)) result ≡ four all }
{
    let (first, rest) = next_alone(words)?;
    let (second, rest) = next_alone(rest)?;
    let (third, rest) = next_alone(rest)?;
    let (fourth, rest) = next_alone(rest)?;
    match next_alone(rest) {
        None => Some((first, second, third, fourth)),
        Some(_) => None,
    }
}
