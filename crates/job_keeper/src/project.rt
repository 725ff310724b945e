//! A project and the form of its name.

ghost use Rattle.std.specs.Prelude.{◌≡◌, IfOk};
ghost use Rattle.std.specs.List.{list_all};
ghost use Rattle.job_keeper.specs.Projects.{is_project_name, is_project_byte};

use std::alloc::Global;
use stg_net::{NoMemory, Seq, Text};

/// A text and the texts of its parts, under a name.
#[derive(Debug, Drop)]
pub struct Project {
    /// 1 to 64 letters, digits, `_` or `-`, where a keeper has it.
    pub name: Text,
    /// Any bytes.
    pub text: Text,
    /// The parts in order, each of any bytes.
    pub parts: Seq<Text>,
}

impl Project {
    /// A copy of all of it.
    pub fn copied(&self, alloc: Global) -> Result<Project, NoMemory>
        ensures { IfOk result (λ p. p ≡ self.now) }
    {
        Ok(Project {
            name: Seq::from_slice(alloc, self.name.as_slice())?,
            text: Seq::from_slice(alloc, self.text.as_slice())?,
            parts: copied_texts(alloc, self.parts.as_slice())?,
        })
    }
}

/// Whether bytes are of the form of a project's name: 1 to 64 letters, digits, `_` or `-`.
pub fn is_project_name(name: &[u8]) -> bool
    ensures { result ≡ is_project_name name.now }
{
    1 <= name.len() && name.len() <= 64 && are_project_bytes(name)
}

fn are_project_bytes(name: &[u8]) -> bool
    ensures { result ≡ list_all is_project_byte name.now }
{
    name.iter().all(|byte| is_project_byte(*byte))
}

fn is_project_byte(byte: u8) -> bool
    ensures { result ≡ is_project_byte byte }
{
    byte.is_ascii_digit()
        || byte.is_ascii_uppercase()
        || byte.is_ascii_lowercase()
        || byte == b'_'
        || byte == b'-'
}

fn copied_texts(alloc: Global, texts: &[Text]) -> Result<Seq<Text>, NoMemory>
    ensures { IfOk result (λ copies. copies ≡ texts.now) }
{
    let mut copies = Seq::new(alloc);
    for text in texts {
        copies.push(Seq::from_slice(alloc, text.as_slice())?)?;
    }
    Ok(copies)
}
