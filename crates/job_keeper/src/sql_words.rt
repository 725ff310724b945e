//! Texts of SQL, compared word by word.

ghost use Rattle.std.specs.Prelude.{◌≤◌, length};

/// Whether two texts have the same words. White space between words doesn't count, nor does the
/// case of letters.
pub fn has_same_words(one: &[u8], other: &[u8]) -> bool {
    let (mut left, mut right) = (one, other);
    for _ in 0..=one.len() {
        let (first, second) = (next_word(left), next_word(right));
        if !first.0.eq_ignore_ascii_case(second.0) {
            return false;
        }
        if first.0.is_empty() {
            return true;
        }
        (left, right) = (first.1, second.1);
    }
    false
}

// The first word, none at the end, and what follows. A word is a longest run of letters, digits
// and `_`, or any other byte alone.
fn next_word(text: &[u8]) -> (&[u8], &[u8]) {
    let text = text.trim_ascii_start();
    let run = text.iter().take_while(|byte| is_word_byte(**byte)).count();
    text.split_at(run.max(1).min(text.len()))
}

fn is_word_byte(byte: u8) -> bool {
    byte.is_ascii_alphanumeric() || byte == b'_'
}
