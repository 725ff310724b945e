//! A signal is given back: the steps that don't stay are undone, and the attempt goes on.

ghost use Rattle.std.specs.Prelude.{◌≡◌, ◌<◌, ◌≤◌, ◌+◌, ◌-◌, ◌^◌, ◌++◌, ◌∷◌, [], ◌||◌, ◌==◌, false, length, min, take, All, IfOk, OnOk};
ghost use Rattle.stg_net.specs.declared.limits.TheConstants.Limits.{PART};
ghost use Rattle.stg_net.specs.Component.{is_one_of};
ghost use Rattle.stg_net.specs.Net.{IsNet, IsWithin};
ghost use Rattle.stg_net.specs.Initial.{graph_of};
ghost use Rattle.stg_laws.specs.Conflict.{HasNoAutoConflict};
ghost use Rattle.stg_derive.specs.Derivations.{known_with};
ghost use Rattle.stg_derive.specs.inner.UnderWay.{IsAttemptSoFar, kept_steps};
ghost use Rattle.stg_derive.specs.inner.Watching.{IsWatching};

use crate::attempt::Attempt;
use crate::notes::forget_from;
use crate::watches::watch_all;
use std::alloc::Global;
use stg_net::{Net, NoMemory, Nums, Seq, is_one_of};

/// The known signals with one more, in ascending order.
fn add_signal(alloc: Global, net: &Net, known: &Nums, signal: u32) -> Result<Nums, NoMemory>
    ensures { IfOk result (λ all. all ≡ known_with net.now known.now signal) }
{
    let mut all = Seq::new(alloc);
    for s in 0..net.signals().len() as u32 {
        if is_one_of(known.as_slice(), s as usize) || s == signal {
            all.push(s)?;
        }
    }
    Ok(all)
}

/// How many of the steps stay where the signal is given back.
fn count_kept(attempt: &Attempt, signal: u32) -> usize
    requires { signal < length attempt.now.first_undone.items }
    ensures { result ≡ kept_steps attempt.now signal }
{
    match attempt.first_undone[signal as usize] {
        Some(i) => i as usize,
        None => attempt.steps.len(),
    }
}

/// Undoes the last step.
fn undo_last(attempt: &mut Attempt)
    requires some { 0 < length attempt.old.steps.items }
    requires past { length attempt.old.editor.past ≡ length attempt.old.steps.items }
    ensures editor { attempt.old.editor.past
        ≡ attempt.new.editor.past ++ attempt.new.editor.now ∷ [] }
    ensures steps { length attempt.new.steps.items + 1 ≡ length attempt.old.steps.items }
    ensures front { attempt.new.steps.items
        ≡ take (length attempt.new.steps.items) attempt.old.steps.items }
    ensures undone { attempt.new.editor.undone ≡ min (attempt.old.editor.undone + 1) (2 ^ 64 - 1) }
    ensures signals { attempt.new.editor.signals ≡ attempt.old.editor.signals }
    ensures known { attempt.new.known ≡ attempt.old.known }
    ensures noted { attempt.new.first_undone ≡ attempt.old.first_undone }
{
    attempt.editor.undo();
    attempt.steps.take_last();
}

/// Gives a hidden signal back: the steps from the first one that doesn't stay are undone, the last
/// first, and the signal is known from now on. Then all is watched.
pub fn give_back(
    alloc: Global,
    net: &Net,
    attempt: &mut Attempt,
    signal: u32,
) -> Result<(), NoMemory>
    requires within { IsWithin PART net.now }
    requires is_net { IsNet net.now }
    requires no_conflict { HasNoAutoConflict (graph_of net.now) }
    requires under_way { IsAttemptSoFar net.now attempt.old }
    requires there { signal < length net.now.signals }
    requires counted { attempt.old.editor.undone < 2 ^ 64 }
    ensures under_way { OnOk result (IsAttemptSoFar net.now attempt.new) }
    ensures watching { OnOk result (IsWatching attempt.new.editor.now attempt.new.watches) }
    ensures known { OnOk result
        (attempt.new.known ≡ known_with net.now attempt.old.known signal) }
    ensures undone { OnOk result (attempt.new.editor.undone ≡ min (attempt.old.editor.undone
        + (length attempt.old.steps.items - kept_steps attempt.old signal)) (2 ^ 64 - 1)) }
{
    attempt.known = add_signal(alloc, net, &attempt.known, signal)?;
    let kept = count_kept(attempt, signal);
    while kept < attempt.steps.len() {
        undo_last(attempt);
    }
    forget_from(&mut attempt.first_undone, kept as u32);
    attempt.editor.show(signal);
    attempt.watches = watch_all(alloc, &attempt.editor)?;
    Ok(())
}
