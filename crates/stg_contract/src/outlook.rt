//! What is to hope for of a dummy.

ghost use Rattle.std.specs.Prelude.{◌↔◌, IsTrue};
ghost use Rattle.stg_net.specs.Graph.{IsDummy};
ghost use Rattle.stg_contract.specs.inner.Judging.{IsFarEnough};
ghost use Rattle.stg_contract.specs.inner.Watches.{IsOutlook};

use crate::judge::judge;
use crate::reach::Reach;
use crate::verdict::Verdict;
use stg_edit::Editor;

/// What a verdict leaves to hope for.
#[derive(Clone, Copy, Debug)]
pub enum Outlook {
    /// The dummy can be contracted.
    Ready,
    /// Numbers of places, arcs or tokens, or weights, speak against it.
    Open,
    /// Its arcs, or a clash, speak against it.
    Hopeless,
}

/// What the verdict on a dummy leaves to hope for.
pub fn outlook_of(editor: &Editor, t: u32, reach: Reach) -> Outlook
    requires dummy { IsDummy editor.now.now t }
    requires reach { IsFarEnough reach editor.now.now }
    ensures { IsOutlook editor.now.now t result }
{
    match judge(editor, t, reach) {
        Verdict::Type1 => Outlook::Ready,
        Verdict::Type2 => Outlook::Ready,
        Verdict::Places(_) => Outlook::Open,
        Verdict::Large => Outlook::Open,
        Verdict::Loop => Outlook::Hopeless,
        Verdict::Weight => Outlook::Hopeless,
        Verdict::Insecure => Outlook::Hopeless,
        Verdict::Clash(_, _) => Outlook::Hopeless,
    }
}

/// Whether there is a live dummy of that number.
pub fn is_dummy(editor: &Editor, t: u32) -> bool
    ensures { IsTrue result ↔ IsDummy editor.now.now t }
{
    editor.is_trans(t) && editor.is_dummy(t)
}
