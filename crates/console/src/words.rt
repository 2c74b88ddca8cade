//! The words of a line. Spaces separate them, one or more.

ghost use Rattle.std.specs.Prelude.{◌≡◌, true, false};
ghost use Rattle.std.specs.Option.{option_map};
ghost use Rattle.std.specs.Str.{IsCharBoundary};
ghost use Rattle.console.specs.Words.{run_length, unspaced, words, split_word, cut, words_of_cut, none, only};

// A line without the spaces at its front.
fn skip_spaces(line: &str) -> &str
    ensures value { result.now ≡ unspaced line.now }
    ensures words { words result.now ≡ words line.now }
    ensures dark { run_length true result.now ≡ 0 }
{
    line.trim_start_matches(' ')
}

// How long the first word of a text is that begins with no space.
fn word_length(text: &str) -> usize
    ensures value { result ≡ run_length false text.now }
    ensures boundary { IsCharBoundary text.now result }
{
    text.find(' ').unwrap_or(text.len())
}

// The first word of a text that begins with no space, and what comes after it.
fn split_word(text: &str) -> Option<(&str, &str)>
    requires { run_length true text.now ≡ 0 }
    ensures cut { option_map (λ p. (p.0.now, p.1.now)) result ≡ split_word text.now }
    ensures words { words text.now ≡ words_of_cut (option_map (λ p. (p.0.now, p.1.now)) result) }
{
    if text.is_empty() {
        None
    } else {
        Some(text.split_at(word_length(text)))
    }
}

/// The first word of a line and what comes after it, or `None` if there is no word.
pub fn next_word(line: &str) -> Option<(&str, &str)>
    ensures cut { option_map (λ p. (p.0.now, p.1.now)) result ≡ cut line.now }
    ensures words { words line.now ≡ words_of_cut (option_map (λ p. (p.0.now, p.1.now)) result) }
{
    split_word(skip_spaces(line))
}

/// Whether a line has no word.
pub fn is_blank(line: &str) -> bool
    ensures { result ≡ none (words line.now) }
{
    next_word(line).is_none()
}

/// The word of a line that has just one.
pub fn only_word(line: &str) -> Option<&str>
    ensures { option_map (λ w. w.now) result ≡ only (words line.now) }
{
    let (word, rest) = next_word(line)?;
    is_blank(rest).then_some(word)
}
