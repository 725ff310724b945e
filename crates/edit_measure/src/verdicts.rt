//! Verdicts on all dummies.

ghost use Rattle.std.specs.Prelude.{IfOk};
ghost use Rattle.stg_net.specs.declared.limits.TheConstants.Limits.{PART};
ghost use Rattle.stg_net.specs.Net.{IsWithin};
ghost use Rattle.stg_net.specs.Graph.{IsDummy};
ghost use Rattle.stg_contract.specs.Calm.{IsCalm};
ghost use Rattle.stg_contract.specs.Verdicts.{IsVerdict};

use crate::measure::is_dummy;
use std::alloc::Global;
use stg_conflict::no_auto_conflict;
use stg_contract::{Verdict, test_calm};
use stg_edit::Editor;
use stg_net::{Net, NoMemory, Seq};

/// How many dummies have which verdict.
#[derive(Clone, Copy, Debug)]
pub struct Tally {
    /// Those that may be contracted.
    pub secure: u32,
    /// Those with a loop.
    pub looped: u32,
    /// Those of neither type of secure contractions.
    pub insecure: u32,
    /// Those after whose contraction a number would be past the limits.
    pub large: u32,
    /// All others.
    pub others: u32,
}

/// An editor, in which no signal is known, of a net without structural auto-conflicts. Of another
/// net there is none.
pub fn calm_editor(alloc: Global, net: &Net) -> Result<Editor, NoMemory>
    requires { IsWithin PART net.now }
    ensures { IfOk result (λ e. IsCalm e.now) }
{
    match no_auto_conflict(net) {
        Ok(()) => {}
        Err(_) => return Err(NoMemory),
    }
    let editor = Editor::of(alloc, net, &Seq::new(alloc))?;
    Ok(editor)
}

/// Tests each dummy of a calm draft.
pub fn tally_all(editor: &Editor) -> Tally
    requires { IsCalm editor.now.now }
{
    let mut tally = Tally {
        secure: 0,
        looped: 0,
        insecure: 0,
        large: 0,
        others: 0,
    };
    for t in 0..editor.all_trans() {
        if is_dummy(editor, t) {
            tally = tally_with(tally, verdict_on(editor, t));
        }
    }
    tally
}

/// The verdict on a dummy of a calm draft.
fn verdict_on(editor: &Editor, t: u32) -> Verdict
    requires dummy { IsDummy editor.now.now t }
    requires calm { IsCalm editor.now.now }
    ensures { IsVerdict editor.now.now t result }
{
    test_calm(editor, t)
}

/// The tally with one verdict more.
fn tally_with(tally: Tally, verdict: Verdict) -> Tally {
    match verdict {
        Verdict::Type1 => Tally {
            secure: tally.secure.saturating_add(1),
            ..tally
        },
        Verdict::Type2 => Tally {
            secure: tally.secure.saturating_add(1),
            ..tally
        },
        Verdict::Loop => Tally {
            looped: tally.looped.saturating_add(1),
            ..tally
        },
        Verdict::Insecure => Tally {
            insecure: tally.insecure.saturating_add(1),
            ..tally
        },
        Verdict::Large => Tally {
            large: tally.large.saturating_add(1),
            ..tally
        },
        _ => Tally {
            others: tally.others.saturating_add(1),
            ..tally
        },
    }
}
