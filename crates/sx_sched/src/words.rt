//! The words of a line, the longest runs of bytes other than spaces and tabs, and the text after
//! some of them. The lines of a schedule are made of them, and lines of other inputs that are read
//! like it: so a wrong number of words is None here, and each reader has a rule of its own for it.

ghost use Rattle.std.specs.Prelude.{◌≡◌, ◌<◌, ◌≤◌, ℕ, true, false, [], ◌∷◌, length, slice_index};
ghost use Rattle.std.specs.Prelude.{None, Some, MatchOption, IfSome};
ghost use Rattle.sx_lex.specs.Lexed.{is_space};
ghost use Rattle.sx_sched.specs.Words.{words_of, past_blanks, past_word, text_behind, one_word};
ghost use Rattle.sx_sched.specs.Words.{two_words, three_words, four_words, two_before};
ghost use Rattle.sx_sched.specs.Reading.{is_comment};

/// Whether a byte separates words.
fn is_space(byte: u8) -> bool
    ensures { result ≡ is_space byte }
{
    byte == b' ' || byte == b'\t'
}

/// How many blanks a text begins with.
fn blanks_before(text: &[u8]) -> usize
    ensures within { result ≤ length text.now }
    ensures before { (k : ℕ) → k < result → is_space (slice_index text.now k) ≡ true }
    ensures first { result < length text.now → is_space (slice_index text.now result) ≡ false }
{
    for (i, byte) in text.iter().enumerate() {
        if !is_space(*byte) {
            return i;
        }
    }
    text.len()
}

/// What follows the blanks that a text begins with.
fn past_blanks(text: &[u8]) -> &[u8]
    ensures words { words_of result.now ≡ words_of text.now }
    ensures first { 0 < length result.now → is_space (slice_index result.now 0) ≡ false }
    ensures text { result.now ≡ past_blanks text.now }
{
    &text[blanks_before(text)..]
}

/// How many bytes are before the first blank.
fn word_length(text: &[u8]) -> usize
    ensures within { result ≤ length text.now }
    ensures before { (k : ℕ) → k < result → is_space (slice_index text.now k) ≡ false }
    ensures first { result < length text.now → is_space (slice_index text.now result) ≡ true }
{
    for (i, byte) in text.iter().enumerate() {
        if is_space(*byte) {
            return i;
        }
    }
    text.len()
}

/// The first word of a text and what follows it; None exactly where the text has no word.
pub fn split_word(text: &[u8]) -> Option<(&[u8], &[u8])>
    ensures words { MatchOption result (words_of text.now ≡ [])
        (λ split. words_of text.now ≡ split.0.now ∷ words_of split.1.now) }
    ensures rest { IfSome result (λ split. split.1.now ≡ past_word (past_blanks text.now)) }
{
    let begun = past_blanks(text);
    if begun.is_empty() {
        return None;
    }
    Some(begun.split_at(word_length(begun)))
}

/// Whether a word begins a comment, which is the rest of its line: its first byte is `#`.
pub fn is_comment(word: &[u8]) -> bool
    ensures { result ≡ is_comment word.now }
{
    match word {
        [first, ..] => *first == b'#',
        [] => false,
    }
}

/// The word of a text that has exactly one.
pub fn one_word(text: &[u8]) -> Option<&[u8]>
    ensures { MatchOption result (one_word (words_of text.now) ≡ None)
        (λ a. one_word (words_of text.now) ≡ Some a.now) }
{
    let (a, rest) = split_word(text)?;
    match split_word(rest) {
        None => Some(a),
        Some(_) => None,
    }
}

/// The words of a text that has exactly two, in order.
pub fn two_words(text: &[u8]) -> Option<(&[u8], &[u8])>
    ensures { MatchOption result (two_words (words_of text.now) ≡ None)
        (λ w. two_words (words_of text.now) ≡ Some (w.0.now, w.1.now)) }
{
    let (a, rest) = split_word(text)?;
    let b = one_word(rest)?;
    Some((a, b))
}

/// The words of a text that has exactly three, in order.
pub fn three_words(text: &[u8]) -> Option<(&[u8], &[u8], &[u8])>
    ensures { MatchOption result (three_words (words_of text.now) ≡ None)
        (λ w. three_words (words_of text.now) ≡ Some (w.0.now, w.1.now, w.2.now)) }
{
    let (a, rest) = split_word(text)?;
    let (b, c) = two_words(rest)?;
    Some((a, b, c))
}

/// The words of a text that has exactly four, in order.
pub fn four_words(text: &[u8]) -> Option<(&[u8], &[u8], &[u8], &[u8])>
    ensures { MatchOption result (four_words (words_of text.now) ≡ None)
        (λ w. four_words (words_of text.now) ≡ Some (w.0.now, w.1.now, w.2.now, w.3.now)) }
{
    let (a, rest) = split_word(text)?;
    let (b, c, d) = three_words(rest)?;
    Some((a, b, c, d))
}

/// Two words, and the text after them and the blanks that follow them, which has a word too; None
/// exactly where there are fewer than three.
pub fn two_before(text: &[u8]) -> Option<(&[u8], &[u8], &[u8])>
    ensures words { MatchOption result (two_before (words_of text.now) ≡ None)
        (λ w. two_before (words_of text.now) ≡ Some (w.0.now, w.1.now)) }
    ensures text { IfSome result (λ w. w.2.now ≡ text_behind 2 text.now) }
{
    let (a, rest) = split_word(text)?;
    let (b, rest) = split_word(rest)?;
    match split_word(rest) {
        None => None,
        Some(_) => Some((a, b, past_blanks(rest))),
    }
}
