//! How many bytes of a text belong to what begins there.

ghost use Rattle.std.specs.Prelude.{◌≡◌, ◌==◌, ◌≤◌, ◌<◌, ℕ, false, ◌+◌, drop, length, slice_index};
ghost use Rattle.std.specs.List.{list_all, position_or_len, prefix_len};
ghost use Rattle.astg_lex.specs.Lines.{may_stand};
ghost use Rattle.astg_lex.specs.Lines as lines;
ghost use Rattle.astg_lex.specs.inner.Lengths.{word_length, word_and_rest};
ghost use Rattle.astg_lex.specs.Words as words;

pub fn may_stand_here(b: u8) -> bool
    ensures { result ≡ may_stand b }
{
    matches!(b, 0x20..=0x7E | b'\t' | b'\r')
}

pub fn all_may_stand(code: &[u8]) -> bool
    ensures { result ≡ list_all may_stand code.now }
{
    code.iter().all(|b| may_stand_here(*b))
}

pub fn is_blank(b: u8) -> bool
    ensures { result ≡ words.is_blank b }
{
    matches!(b, b' ' | b'\t' | b'\r')
}

pub fn is_single(b: u8) -> bool
    ensures { result ≡ words.is_single b }
{
    matches!(b, b'{' | b'}' | b'<' | b'>' | b',' | b'=' | b'(' | b')')
}

pub fn is_joining(b: u8) -> bool
    ensures { result ≡ words.is_joining b }
{
    !is_blank(b) && !is_single(b)
}

pub fn line_length(bytes: &[u8]) -> usize
    ensures value { result ≡ lines.line_length bytes.now }
    ensures most { result ≤ length bytes.now }
{
    bytes.iter().take_while(|b| **b != b'\n').count()
}

fn code_length(line: &[u8]) -> usize
    ensures value { result ≡ position_or_len (λ b. b == 35) line.now }
    ensures most { result ≤ length line.now }
{
    line.iter().take_while(|b| **b != b'#').count()
}

/// What stands before the comment.
pub fn code_of(line: &[u8]) -> &[u8]
    ensures value { result.now ≡ lines.code_of line.now }
    ensures most { length result.now ≤ length line.now }
{
    &line[..code_length(line)]
}

/// Where the line after one of so many bytes begins.
pub fn after_line(text: &[u8], at: usize, count: usize) -> usize
    requires some { at < length text.now }
    requires within { at + count ≤ length text.now }
    ensures most { result ≤ length text.now }
    ensures least { at < result }
    ensures rest { drop result text.now ≡ drop (count + 1) (drop at text.now) }
{
    if at + count < text.len() {
        at + count + 1
    } else {
        at + count
    }
}

fn run_length(bytes: &[u8]) -> usize
    ensures value { result ≡ prefix_len words.is_joining bytes.now }
    ensures most { result ≤ length bytes.now }
{
    bytes.iter().take_while(|b| is_joining(**b)).count()
}

pub fn word_length(bytes: &[u8]) -> usize
    requires some { 0 < length bytes.now }
    requires word { words.is_blank (slice_index bytes.now 0) ≡ false }
    ensures value { result ≡ word_length bytes.now }
    ensures least { 1 ≤ result }
    ensures most { result ≤ length bytes.now }
    ensures words { (at : ℕ) → words.words_at at bytes.now ≡ word_and_rest result at bytes.now }
{
    if is_single(bytes[0]) {
        1
    } else {
        run_length(bytes)
    }
}
