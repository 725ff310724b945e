//! Processor times of edits, tests and searches.

ghost use Rattle.stg_net.specs.declared.limits.TheConstants.Limits.{PART};
ghost use Rattle.stg_net.specs.Net.{IsWithin};
ghost use Rattle.stg_contract.specs.Calm.{IsCalm};
ghost use Rattle.edit_measure.specs.Measuring.{IsLight};

use crate::measure::{Touched, edit_all, new_editor, touch_all};
use crate::verdicts::{Tally, calm_editor, tally_all};
use std::alloc::Global;
use std::time::{CpuClock, Duration};
use stg_edit::Editor;
use stg_net::{Net, NoMemory};
use stg_redundant::{PlaceFound, redundant_place};

/// What contractions and undos give, and their time.
#[derive(Drop)]
pub struct Edited {
    /// The edits that were undone.
    pub undone: u64,
    /// The arcs of the net.
    pub arcs: usize,
    /// The arcs that the contractions touch.
    pub touched: Touched,
    /// The processor time of the contractions and undos.
    pub time: Duration,
}

/// What tests and a search give, and their times.
#[derive(Drop)]
pub struct Looked {
    /// The verdicts.
    pub tally: Tally,
    /// The processor time of the tests.
    pub tests: Duration,
    /// The redundant place.
    pub found: Option<PlaceFound>,
    /// The processor time of the search.
    pub search: Duration,
}

/// The processor time so far, or none where the clock fails.
fn time_so_far(rt: &impl CpuClock) -> Duration {
    rt.thread_cpu_time().unwrap_or(Duration::ZERO)
}

fn time_since(rt: &impl CpuClock, start: Duration) -> Duration {
    time_so_far(rt).saturating_sub(start)
}

fn time_undos(rt: &impl CpuClock, editor: Editor) -> Result<(u64, Duration), NoMemory>
    requires { IsLight editor.now }
{
    let start = time_so_far(rt);
    let undone = edit_all(editor)?;
    Ok((undone, time_since(rt, start)))
}

fn time_tests(rt: &impl CpuClock, editor: &Editor) -> (Tally, Duration)
    requires { IsCalm editor.now.now }
{
    let start = time_so_far(rt);
    let tally = tally_all(editor);
    (tally, time_since(rt, start))
}

fn time_search(
    rt: &impl CpuClock,
    alloc: Global,
    editor: &Editor,
) -> Result<(Option<PlaceFound>, Duration), NoMemory> {
    let start = time_so_far(rt);
    let found = redundant_place(alloc, editor)?;
    Ok((found, time_since(rt, start)))
}

/// Contracts each transition of a net and takes that back.
pub fn time_edits(rt: &(impl CpuClock + AllocGlobal), net: &Net) -> Result<Edited, NoMemory>
    requires { IsWithin PART net.now }
{
    let touched = touch_all(new_editor(rt.alloc(), net)?)?;
    let (undone, time) = time_undos(rt, new_editor(rt.alloc(), net)?)?;
    Ok(Edited {
        undone,
        arcs: net.arcs().len(),
        touched,
        time,
    })
}

/// Tests each transition of a net, and looks for a redundant place.
pub fn time_looks(rt: &(impl CpuClock + AllocGlobal), net: &Net) -> Result<Looked, NoMemory>
    requires { IsWithin PART net.now }
{
    let editor = calm_editor(rt.alloc(), net)?;
    let (tally, tests) = time_tests(rt, &editor);
    let (found, search) = time_search(rt, rt.alloc(), &editor)?;
    Ok(Looked {
        tally,
        tests,
        found,
        search,
    })
}
