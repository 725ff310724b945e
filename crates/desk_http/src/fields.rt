//! The length of a request's body, by its fields.

ghost use Rattle.std.specs.Prelude.{◌≡◌, ◌≤◌, true, map, length, All};
ghost use Rattle.std.specs.List.{list_all};
ghost use Rattle.std.specs.Str.{bytes_eq};
ghost use Rattle.httparse.specs.Spans.{header_bytes, IsHeaderWithin};
ghost use Rattle.stg_net.specs.Names.{is_digit};
ghost use Rattle.desk_http.specs.Fields.{read_length, is_field, is_length, number_from, length_by, is_coded, body_length, lower};

use httparse::spans::HeaderSpan;

fn lower(byte: u8) -> u8
    ensures { result ≡ lower byte }
{
    if b'A' <= byte && byte <= b'Z' {
        byte + 32
    } else {
        byte
    }
}

fn is_same(text: &[u8], name: &[u8]) -> bool
    ensures { result ≡ bytes_eq (map lower text.now) name.now }
{
    match (text, name) {
        ([], []) => true,
        ([a, text @ ..], [b, name @ ..]) => lower(*a) == *b && is_same(text, name),
        _ => false,
    }
}

fn is_field(bytes: &[u8], header: HeaderSpan, name: &[u8]) -> bool
    requires { IsHeaderWithin (length bytes.now) header }
    ensures { result ≡ is_field name.now (header_bytes bytes.now header) }
{
    is_same(header.name.of(bytes), name)
}

fn is_digit(byte: u8) -> bool
    ensures { result ≡ is_digit byte }
{
    b'0' <= byte && byte <= b'9'
}

fn are_digits(text: &[u8]) -> bool
    ensures { result ≡ list_all is_digit text.now }
{
    text.iter().all(|byte| is_digit(*byte))
}

fn is_length(text: &[u8]) -> bool
    ensures { result ≡ is_length text.now }
{
    1 <= text.len() && text.len() <= 9 && are_digits(text)
}

fn number_of(text: &[u8]) -> u64
    requires digits { list_all is_digit text.now ≡ true }
    requires short { length text.now ≤ 9 }
    ensures { result ≡ number_from 0 text.now }
{
    let mut number: u64 = 0;
    for byte in text.iter() {
        number = number * 10 + u64::from(*byte - b'0');
    }
    number
}

/// The number that 1 to 9 digits give.
pub fn read_length(text: &[u8]) -> Option<u64>
    ensures { result ≡ read_length text.now }
{
    if is_length(text) {
        Some(number_of(text))
    } else {
        None
    }
}

// Whether a Transfer-Encoding is given.
fn is_coded(bytes: &[u8], headers: &[HeaderSpan]) -> bool
    requires { All (IsHeaderWithin (length bytes.now)) headers.now }
    ensures { result ≡ is_coded (map (header_bytes bytes.now) headers.now) }
{
    match headers {
        [] => false,
        [header, rest @ ..] => {
            is_field(bytes, *header, b"transfer-encoding") || is_coded(bytes, rest)
        }
    }
}

// What the fields say of a length, where those before said `found`.
fn length_by(bytes: &[u8], headers: &[HeaderSpan], found: Option<u64>) -> Option<Option<u64>>
    requires { All (IsHeaderWithin (length bytes.now)) headers.now }
    ensures { result ≡ length_by (map (header_bytes bytes.now) headers.now) found }
{
    let [header, rest @ ..] = headers else {
        return Some(found);
    };
    if !is_field(bytes, *header, b"content-length") {
        return length_by(bytes, rest, found);
    }
    match (found, read_length(header.value.of(bytes))) {
        (None, Some(length)) => length_by(bytes, rest, Some(length)),
        _ => None,
    }
}

/// The length of the body: `None` where the fields are bad, `Some(None)` where they give none.
pub fn body_length(bytes: &[u8], headers: &[HeaderSpan]) -> Option<Option<u64>>
    requires { All (IsHeaderWithin (length bytes.now)) headers.now }
    ensures { result ≡ body_length (map (header_bytes bytes.now) headers.now) }
{
    if is_coded(bytes, headers) {
        None
    } else {
        length_by(bytes, headers, None)
    }
}
