//! Notes for the undo: for each signal, the first step that doesn't stay where it is given back.

ghost use Rattle.std.specs.Prelude.{◌≡◌, ◌<◌, ℕ, None, IfOk, length, slice_index_or};
ghost use Rattle.stg_net.specs.Net.{trans_at};
ghost use Rattle.stg_derive.specs.Loggable.{IsLoggableDummyRule};
ghost use Rattle.stg_derive.specs.inner.UnderWay.{IsNotedWhere, ComparesWith, IsGone, HasTransBelow, noted_below};

use crate::Step;
use std::alloc::Global;
use stg_conflict::note_clashes;
use stg_edit::Editor;
use stg_net::{Net, NoMemory};
use stg_redundant::DummyRule;

/// The signal of a transition.
pub fn signal_of(net: &Net, t: u32) -> u32
    requires { t < length net.now.trans }
    ensures value { result ≡ (trans_at net.now.trans t).signal }
    ensures there { result < length net.now.signals }
{
    net.trans()[t as usize].signal
}

/// Notes of nothing for each of so many signals.
pub fn no_notes(alloc: Global, signals: usize) -> Result<Vec<Option<u32>>, NoMemory>
    ensures nothing { IfOk result (λ notes. (s : ℕ) → slice_index_or notes.items s None ≡ None) }
    ensures len { IfOk result (λ notes. length notes.items ≡ signals) }
{
    let mut notes = Vec::with_capacity(alloc, signals)?;
    for _s in 0..signals {
        notes.push(None)?;
    }
    Ok(notes)
}

/// Notes the step of that number for a signal that has nothing noted yet.
fn note(noted: &mut [Option<u32>], signal: u32, i: u32)
    requires { signal < length noted.old }
    ensures noted { (s : ℕ) → s < length noted.old → IsNotedWhere (signal ≡ s) i
        (slice_index_or noted.old s None) (slice_index_or noted.new s None) }
    ensures len { length noted.new ≡ length noted.old }
{
    match noted[signal as usize] {
        Some(_) => {}
        None => noted[signal as usize] = Some(i),
    }
}

/// Notes the step of that number for the signal of the dummy with which the rule compares.
fn note_rule(net: &Net, rule: DummyRule, i: u32, noted: &mut [Option<u32>])
    requires there { IsLoggableDummyRule (length net.now.trans) rule }
    requires long { length noted.old ≡ length net.now.signals }
    ensures noted { (s : ℕ) → s < length noted.old → IsNotedWhere (ComparesWith net.now s rule) i
        (slice_index_or noted.old s None) (slice_index_or noted.new s None) }
    ensures len { length noted.new ≡ length noted.old }
{
    match rule {
        DummyRule::Loop => {}
        DummyRule::Same(u) => note(noted, signal_of(net, u), i),
    }
}

/// Notes the step of that number, which led to this draft, for each signal that has nothing noted
/// yet and for which it may not stay. The places that it made have at least the number `first`.
pub fn note_step(
    net: &Net,
    editor: &Editor,
    first: u32,
    step: Step,
    i: u32,
    noted: &mut [Option<u32>],
)
    requires there { HasTransBelow (length net.now.trans) step }
    requires signals { editor.now.signals ≡ net.now.signals }
    requires long { length noted.old ≡ length net.now.signals }
    ensures noted { (s : ℕ) → s < length noted.old → IsNotedWhere
        (IsGone net.now s editor.now.now first step) i
        (slice_index_or noted.old s None) (slice_index_or noted.new s None) }
    ensures len { length noted.new ≡ length noted.old }
{
    match step {
        Step::DropPlace(_) => {}
        Step::DropDummy(found) => {
            note(noted, signal_of(net, found.trans), i);
            note_rule(net, found.rule, i, noted);
        }
        Step::Contract { trans, .. } => {
            note(noted, signal_of(net, trans), i);
            note_clashes(editor, first, i, noted);
        }
    }
}

/// What is noted, where only a number below `kept` stays.
fn below(noted: Option<u32>, kept: u32) -> Option<u32>
    ensures { result ≡ noted_below kept noted }
{
    match noted {
        Some(i) => { if i < kept { Some(i) } else { None } }
        None => None,
    }
}

/// Takes off the notes the steps from that number on.
pub fn forget_from(noted: &mut [Option<u32>], kept: u32)
    ensures noted { (s : ℕ) → slice_index_or noted.new s None
        ≡ noted_below kept (slice_index_or noted.old s None) }
    ensures len { length noted.new ≡ length noted.old }
{
    for s in 0..noted.len() {
        noted[s] = below(noted[s], kept);
    }
}
