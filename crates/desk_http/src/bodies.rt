//! The bodies of replies, as JSON.

ghost use Rattle.std.specs.Prelude.{◌≡◌, IfOk, IsTrue, codes, map, string_bytes};
ghost use Rattle.serde_json.specs.Data.{array, member, no_members, number, object, string, unsigned};
ghost use Rattle.serde_json.specs.View.{view, items_of};
ghost use Rattle.job_keeper.specs.Projects.{is_project_name};
ghost use Rattle.desk_http.specs.Replies as replies;

use serde_json::{Value, json};
use std::alloc::{AllocError, Global};
use stg_net::{NoMemory, Text};

/// A name as text.
pub fn name_text(name: &[u8]) -> &str
    requires { IsTrue (is_project_name name.now) }
    ensures { result.now ≡ name.now }
{
    match str::from_utf8(name) {
        Ok(text) => text,
        Err(_) => unreachable!(),
    }
}

/// Bytes as text. Names and words of specifications are ASCII; where other bytes come, there is no
/// memory for them.
pub fn as_text(bytes: &[u8]) -> Result<&str, NoMemory>
    ensures { IfOk result (λ s. s.now ≡ bytes.now) }
{
    match str::from_utf8(bytes) {
        Ok(text) => Ok(text),
        Err(_) => Err(NoMemory),
    }
}

fn error_value(alloc: Global, word: &str) -> Result<Value, AllocError>
    ensures { IfOk result
        (λ v. view v ≡ object (member (codes "error") (string word.now) no_members)) }
{
    json!(in alloc; {"error": word})
}

/// `{"error":word}`
pub fn error_body(alloc: Global, word: &str) -> Result<String, AllocError>
    ensures { IfOk result (λ s. string_bytes s ≡ replies.error_body word.now) }
{
    let value = error_value(alloc, word)?;
    value.to_string(alloc)
}

fn project_value(alloc: Global, name: &str, count: u64) -> Result<Value, AllocError>
    ensures { IfOk result (λ v. view v ≡ object (member (codes "name") (string name.now)
        (member (codes "parts") (number (unsigned count)) no_members))) }
{
    json!(in alloc; {"name": name, "parts": count})
}

/// `{"name":name,"parts":count}`
pub fn project_body(alloc: Global, name: &str, count: u64) -> Result<String, AllocError>
    ensures { IfOk result (λ s. string_bytes s ≡ replies.project_body name.now count) }
{
    let value = project_value(alloc, name, count)?;
    value.to_string(alloc)
}

fn removed_value(alloc: Global, name: &str) -> Result<Value, AllocError>
    ensures { IfOk result
        (λ v. view v ≡ object (member (codes "removed") (string name.now) no_members)) }
{
    json!(in alloc; {"removed": name})
}

/// `{"removed":name}`
pub fn removed_body(alloc: Global, name: &str) -> Result<String, AllocError>
    ensures { IfOk result (λ s. string_bytes s ≡ replies.removed_body name.now) }
{
    let value = removed_value(alloc, name)?;
    value.to_string(alloc)
}

// A name as a value.
fn name_value(alloc: Global, name: &[u8]) -> Result<Value, NoMemory>
    ensures { IfOk result (λ v. view v ≡ string name.now) }
{
    let text = as_text(name)?;
    Ok(Value::String(String::from_str(alloc, text)?))
}

// The names as values.
fn values(alloc: Global, names: &[Text]) -> Result<Vec<Value>, NoMemory>
    ensures { IfOk result (λ vs. map view vs.items ≡ map string names.now) }
{
    let mut items = Vec::new(alloc);
    for name in names.iter() {
        items.push(name_value(alloc, name.as_slice())?)?;
    }
    Ok(items)
}

fn list_value(alloc: Global, names: &[Text]) -> Result<Value, NoMemory>
    ensures { IfOk result (λ v. view v ≡ object (member (codes "projects")
        (array (items_of (map string names.now))) no_members)) }
{
    let list = Value::Array(values(alloc, names)?);
    Ok(json!(in alloc; {"projects": list})?)
}

/// `{"projects":[name, ..]}`
#[tactic(auto, using(crate::proofs::BodyLemmas::no_floats))]
pub fn list_body(alloc: Global, names: &[Text]) -> Result<String, NoMemory>
    ensures { IfOk result (λ s. string_bytes s ≡ replies.list_body names.now) }
{
    let value = list_value(alloc, names)?;
    Ok(value.to_string(alloc)?)
}

fn rule_value(alloc: Global, rule: &str, line: u32) -> Result<Value, AllocError>
    ensures { IfOk result (λ v. view v ≡ object (member (codes "error") (string rule.now)
        (member (codes "line") (number (unsigned line)) no_members))) }
{
    json!(in alloc; {"error": rule, "line": line})
}

/// `{"error":rule,"line":line}`
pub fn rule_body(alloc: Global, rule: &str, line: u32) -> Result<String, AllocError>
    ensures { IfOk result (λ s. string_bytes s ≡ replies.rule_body rule.now line) }
{
    let value = rule_value(alloc, rule, line)?;
    value.to_string(alloc)
}

fn clash_value(alloc: Global, place: &str, t1: &str, t2: &str) -> Result<Value, AllocError>
    ensures { IfOk result (λ v. view v ≡ object (member (codes "error") (string (codes "Clash"))
        (member (codes "line") (number (unsigned 0))
        (member (codes "place") (string place.now)
        (member (codes "t1") (string t1.now)
        (member (codes "t2") (string t2.now) no_members)))))) }
{
    json!(in alloc; {"error": "Clash", "line": 0, "place": place, "t1": t1, "t2": t2})
}

/// `{"error":"Clash","line":0,"place":place,"t1":t1,"t2":t2}`
pub fn clash_body(alloc: Global, place: &str, t1: &str, t2: &str) -> Result<String, AllocError>
    ensures { IfOk result (λ s. string_bytes s ≡ replies.clash_body place.now t1.now t2.now) }
{
    let value = clash_value(alloc, place, t1, t2)?;
    value.to_string(alloc)
}
