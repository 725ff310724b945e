//! The bytes of a reply.

ghost use Rattle.std.specs.Prelude.{◌≡◌, IfOk, OnOk, ◌++◌, decimal};
ghost use Rattle.std.specs.Option.{option_copied};
ghost use Rattle.desk_http.specs.Replies.{reply_text, status_line, type_field, length_field, media_text, allow_field};

use http::StatusCode;
use itoa::Buffer;
use std::alloc::Global;
use stg_net::{NoMemory, Seq, Text};

/// The type of a body.
#[derive(Clone, Copy, Debug, PartialEq, Eq)]
pub enum Media {
    /// `text/plain`
    Text,
    /// `application/json`
    Json,
}

/// A status, and the bytes of a reply of it.
#[derive(Debug, Drop)]
pub struct Reply {
    pub status: u16,
    pub text: Text,
}

fn media_text(media: Media) -> &'static [u8]
    ensures { result.now ≡ media_text media }
{
    match media {
        Media::Text => b"text/plain",
        Media::Json => b"application/json",
    }
}

fn push_number(text: &mut Text, number: u64) -> Result<(), NoMemory>
    ensures { OnOk result (text.new ≡ text.old ++ decimal number) }
{
    text.extend_from_slice(Buffer::new().format(number).as_bytes())?;
    Ok(())
}

fn push_status(text: &mut Text, status: StatusCode) -> Result<(), NoMemory>
    ensures { OnOk result (text.new ≡ text.old ++ status_line status) }
{
    text.extend_from_slice(b"HTTP/1.1 ")?;
    push_number(text, u64::from(status.as_u16()))?;
    text.extend_from_slice(b" ")?;
    if let Some(phrase) = status.canonical_reason() {
        text.extend_from_slice(phrase.as_bytes())?;
    }
    text.extend_from_slice(b"\r\n")?;
    Ok(())
}

fn push_type(text: &mut Text, media: Media) -> Result<(), NoMemory>
    ensures { OnOk result (text.new ≡ text.old ++ type_field media) }
{
    text.extend_from_slice(b"Content-Type: ")?;
    text.extend_from_slice(media_text(media))?;
    text.extend_from_slice(b"\r\n")?;
    Ok(())
}

fn push_length(text: &mut Text, length: u64) -> Result<(), NoMemory>
    ensures { OnOk result (text.new ≡ text.old ++ length_field length) }
{
    text.extend_from_slice(b"Content-Length: ")?;
    push_number(text, length)?;
    text.extend_from_slice(b"\r\n")?;
    Ok(())
}

fn push_allow(text: &mut Text, allow: Option<&[u8]>) -> Result<(), NoMemory>
    ensures { OnOk result (text.new ≡ text.old ++ allow_field (option_copied allow.entry)) }
{
    if let Some(methods) = allow {
        text.extend_from_slice(b"Allow: ")?;
        text.extend_from_slice(methods)?;
        text.extend_from_slice(b"\r\n")?;
    }
    Ok(())
}

/// The bytes of a reply: its head and its body.
pub fn reply_text(
    alloc: Global,
    status: StatusCode,
    media: Media,
    allow: Option<&[u8]>,
    body: &[u8],
) -> Result<Text, NoMemory>
    ensures { IfOk result
        (λ text. text ≡ reply_text status media (option_copied allow.entry) body.now) }
{
    let mut text = Seq::new(alloc);
    push_status(&mut text, status)?;
    push_type(&mut text, media)?;
    push_length(&mut text, body.len() as u64)?;
    push_allow(&mut text, allow)?;
    text.extend_from_slice(b"Connection: close\r\n\r\n")?;
    text.extend_from_slice(body)?;
    Ok(text)
}
