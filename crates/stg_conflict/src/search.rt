//! The search for the least clash of a net.

ghost use Rattle.std.specs.Prelude.{◌≡◌, ◌<◌, ◌↔◌, length, All, IsOk, IfErr};
ghost use Rattle.stg_net.specs.declared.arc.NetArc.{NetArc};
ghost use Rattle.stg_net.specs.Initial.{graph_of};
ghost use Rattle.stg_laws.specs.Conflict.{HasNoAutoConflict, IsLeastClash};
ghost use Rattle.stg_conflict.specs.inner.Search.{have_label, are_clashing, first_clash, least_clash};

use crate::Clash;
use crate::clash::least_of;
use stg_net::{Net, NetArc, TransName};

/// Whether two names of a net have one label.
pub(crate) fn is_label(one: TransName, other: TransName) -> bool
    ensures { result ≡ have_label one other }
{
    one.signal == other.signal && one.edge == other.edge
}

fn take_both(trans: &[TransName], one: NetArc, other: NetArc) -> bool
    requires one { one.trans < length trans.now }
    requires other { other.trans < length trans.now }
    ensures { result ≡ are_clashing trans.now one other }
{
    let same = is_label(trans[one.trans as usize], trans[other.trans as usize]);
    same && !one.into && !other.into
}

// The arcs of one place stand together, so the search ends with the first arc of another one.
fn find_first(trans: &[TransName], arc: NetArc, later: &[NetArc]) -> Option<Clash>
    requires arc { arc.trans < length trans.now }
    requires later { All (λ (a : NetArc). a.trans < length trans.now) later.now }
    ensures { result ≡ first_clash trans.now arc later.now }
{
    for other in later {
        if other.place != arc.place {
            return None;
        }
        if take_both(trans, arc, *other) {
            return Some(Clash {
                t1: arc.trans,
                t2: other.trans,
                place: arc.place,
            });
        }
    }
    None
}

fn find_clash(trans: &[TransName], arcs: &[NetArc]) -> Option<Clash>
    requires { All (λ (a : NetArc). a.trans < length trans.now) arcs.now }
    ensures { result ≡ least_clash trans.now arcs.now }
{
    let mut least = None;
    for i in (0..arcs.len()).rev() {
        least = least_of(find_first(trans, arcs[i], &arcs[i + 1..]), least);
    }
    least
}

/// Looks for two different transitions of one label that take from one place. An error is the least
/// such pair with the least such place.
pub fn no_auto_conflict(net: &Net) -> Result<(), Clash>
    ensures none { IsOk result ↔ HasNoAutoConflict (graph_of net.now) }
    ensures least { IfErr result (λ c. IsLeastClash (graph_of net.now) c.t1 c.t2 c.place) }
{
    match find_clash(net.trans(), net.arcs()) {
        None => Ok(()),
        Some(clash) => Err(clash),
    }
}
