//! The number for which a word of digits stands.

ghost use Rattle.std.specs.Prelude.{◌≡◌, ◌≤◌, ◌<◌, true, length, IfSome};
ghost use Rattle.std.specs.List.{list_all};
ghost use Rattle.stg_net.specs.Names as names;
ghost use Rattle.astg_lex.specs.Numbers as numbers;

fn is_digit(c: u8) -> bool
    ensures { result ≡ names.is_digit c }
{
    c.is_ascii_digit()
}

fn all_digits(bytes: &[u8]) -> bool
    ensures { result ≡ list_all names.is_digit bytes.now }
{
    bytes.iter().all(|c| is_digit(*c))
}

fn is_number(word: &[u8]) -> bool
    ensures { result ≡ numbers.is_number word.now }
{
    1 <= word.len() && word.len() <= 9 && all_digits(word)
}

fn value(digits: &[u8]) -> u32
    requires bounded { length digits.now ≤ 9 }
    requires all { list_all names.is_digit digits.now ≡ true }
    ensures value { result ≡ numbers.value_after 0 digits.now }
    ensures within { result < 1000000000 }
{
    let mut n = 0;
    for c in digits {
        n = n * 10 + (*c - b'0') as u32;
    }
    n
}

/// The number of a word of 1 to 9 digits, and none of another word.
pub fn number(word: &[u8]) -> Option<u32>
    ensures value { result ≡ numbers.number word.now }
    ensures within { IfSome result (λ n. n < 1000000000) }
{
    if is_number(word) {
        Some(value(word))
    } else {
        None
    }
}
