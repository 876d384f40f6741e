//! The lines of a text, and the words of a line.

ghost use Rattle.std.specs.Prelude.{◌≡◌, ◌<◌, ◌==◌, ◌∷◌, ◌++◌, ◌↔◌, [], false, true, get_or, length, option_copied, IsTrue, MatchOption};
ghost use Rattle.std.specs.List.{list_all};
ghost use Rattle.domain_groups.specs.Lines.{IsParted, has_equals, is_blank, is_newline, is_passed_over, is_plain, is_return, lines, without_returns, words};

/// The first line of a text, and what stands after it if there is a newline.
pub(crate) fn cut_line(text: &[u8]) -> (&[u8], Option<&[u8]>)
    ensures lines { MatchOption (option_copied result.1)
        (lines text.now ≡ result.0.now ∷ [])
        (λ rest. lines text.now ≡ result.0.now ∷ lines rest) }
    ensures less { MatchOption (option_copied result.1)
        (length text.now ≡ length text.now)
        (λ rest. length rest < length text.now) }
{
    match text.iter().position(|byte| *byte == b'\n') {
        Some(end) => (strip_returns(&text[..end]), Some(&text[end + 1..])),
        None => (strip_returns(text), None),
    }
}

/// A line without the carriage returns at its end.
fn strip_returns(line: &[u8]) -> &[u8]
    ensures { result.now ≡ without_returns line.now }
{
    let mut rest = line;
    'returns: while let [front @ .., b'\r'] = rest {
        rest = front;
    }
    rest
}

/// Whether a line tells no event.
pub(crate) fn is_passed_over(line: &[u8]) -> bool
    ensures { result ≡ is_passed_over line.now }
{
    is_blank_line(line) || matches!(line, [b'#', ..])
}

/// Whether a line has no byte but spaces and tabs.
fn is_blank_line(line: &[u8]) -> bool
    ensures { result ≡ list_all is_blank line.now }
{
    line.iter().all(|byte| matches!(byte, b' ' | b'\t'))
}

/// Whether a line has no byte but tabs and those from the space to the tilde.
pub(crate) fn is_plain(line: &[u8]) -> bool
    ensures { result ≡ list_all is_plain line.now }
{
    line.iter().all(|byte| matches!(byte, b'\t' | b' '..=b'~'))
}

/// The first word of a line, and what stands after it; None exactly where there is no word.
pub(crate) fn cut_word(line: &[u8]) -> Option<(&[u8], &[u8])>
    ensures words { MatchOption result
        ((words line.now ≡ []) × (list_all is_blank line.now ≡ true))
        (λ cut. words line.now ≡ cut.0.now ∷ words cut.1.now) }
    ensures less { MatchOption result
        (length line.now ≡ length line.now)
        (λ cut. length cut.1.now < length line.now) }
{
    match line.iter().position(|byte| !matches!(byte, b' ' | b'\t')) {
        Some(start) => Some(take_word(&line[start..])),
        None => None,
    }
}

/// The word at the front of a line, and what stands after it.
fn take_word(line: &[u8]) -> (&[u8], &[u8])
    requires some { 0 < length line.now }
    requires first { is_blank (get_or line.now 0 0) ≡ false }
    ensures words { words line.now ≡ result.0.now ∷ words result.1.now }
    ensures less { length result.1.now < length line.now }
{
    match line.iter().position(|byte| matches!(byte, b' ' | b'\t')) {
        Some(end) => (&line[..end], &line[end..]),
        None => (line, &[]),
    }
}

/// A word's parts before and after its last `=`; None exactly where there is none.
pub(crate) fn part_word(word: &[u8]) -> Option<(&[u8], &[u8])>
    ensures { MatchOption result
        (has_equals word.now ≡ false)
        (λ parts. IsParted word.now parts.0.now parts.1.now) }
{
    match word.iter().rposition(|byte| *byte == b'=') {
        Some(place) => Some((&word[..place], &word[place + 1..])),
        None => None,
    }
}

/// Whether a word holds `=`.
pub(crate) fn has_equals(word: &[u8]) -> bool
    ensures { result ≡ has_equals word.now }
{
    word.iter().any(|byte| *byte == b'=')
}
