//! What single words are.

ghost use Rattle.std.specs.Prelude.{◌≡◌};
ghost use Rattle.std.specs.Option.{option_copied};
ghost use Rattle.desij_words.specs.Words.{after_prefix, is_file_word, number_up_to, word_kind};
ghost use Rattle.desij_words.specs.Words.{begins_number as begins_number_text};
ghost use Rattle.desij_words.specs.Words.{begins_with_dash as begins_with_dash_text};
ghost use Rattle.desij_words.specs.inner.Told.{word_told};

/// The most workers that may share the groups.
pub const MOST_WORKERS: u32 = 64;

/// The most outputs that a pipeline may have.
pub const MOST_OUTPUTS: u32 = 248;

/// The most connections that may be served.
pub const MOST_CONNECTIONS: u32 = 1_000_000;

/// What has a value: the place of a word that is no option's, or an option.
#[derive(Clone, Copy)]
pub enum Argument {
    Positional,
    Workers,
    Partition,
    Steps,
}

/// What a word is by itself: it gives a value, or asks for one in the next word, or is neither.
pub enum WordKind<'a> {
    Gives(Argument, &'a str),
    Asks(Argument),
    Unknown,
}

fn begins_with_dash(word: &str) -> bool
    ensures { result ≡ begins_with_dash_text word.now }
{
    let bytes = word.as_bytes();
    !bytes.is_empty() && bytes[0] == b'-'
}

/// Whether the word may name a file.
pub fn is_file(word: &str) -> bool
    ensures { result ≡ is_file_word word.now }
{
    let bytes = word.as_bytes();
    !bytes.is_empty() && bytes[0] != b'-'
}

fn begins_number(word: &str) -> bool
    ensures { result ≡ begins_number_text word.now }
{
    let bytes = word.as_bytes();
    !bytes.is_empty() && bytes[0] >= b'1' && bytes[0] <= b'9'
}

/// The number that the word writes, from 1 to the most.
pub fn number(word: &str, most: u32) -> Option<u32>
    ensures { result ≡ number_up_to most word.now }
{
    // `parse` by itself takes a sign and zeros in front.
    if !begins_number(word) {
        return None;
    }
    let Ok(number) = word.parse::<u32>() else {
        return None;
    };
    if number <= most { Some(number) } else { None }
}

/// What follows the beginning.
pub fn value_after<'a>(word: &'a str, beginning: &str) -> Option<&'a str>
    ensures { option_copied result ≡ after_prefix beginning.now word.now }
{
    word.strip_prefix(beginning)
}

/// What the word is.
pub fn read_word(word: &str) -> WordKind<'_>
    ensures { word_told result ≡ word_kind word.now }
{
    if word == "--steps" {
        WordKind::Gives(Argument::Steps, "")
    } else if word == "--workers" {
        WordKind::Asks(Argument::Workers)
    } else if word == "--partition" {
        WordKind::Asks(Argument::Partition)
    } else if let Some(value) = value_after(word, "--workers=") {
        WordKind::Gives(Argument::Workers, value)
    } else if let Some(value) = value_after(word, "--partition=") {
        WordKind::Gives(Argument::Partition, value)
    } else if begins_with_dash(word) {
        WordKind::Unknown
    } else {
        WordKind::Gives(Argument::Positional, word)
    }
}
