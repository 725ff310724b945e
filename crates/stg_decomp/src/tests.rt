//! That the workers of a decomposition run beside each other.

use super::*;
use astg_read::read_spec;
use std::sync::atomic::AtomicU32;
use std::sync::atomic::Ordering::SeqCst;
use std::test::Fail;
use stg_crew::Gate;

/// How often a gate looks whether others have entered.
const TURNS: u32 = 50_000_000;

/// Four handshakes that don't meet.
const HANDSHAKES: &[u8] = b".inputs r1 r2 r3 r4
.outputs a1 a2 a3 a4
.graph
r1+ a1+
a1+ r1-
r1- a1-
a1- r1+
r2+ a2+
a2+ r2-
r2- a2-
a2- r2+
r3+ a3+
a3+ r3-
r3- a3-
a3- r3+
r4+ a4+
a4+ r4-
r4- a4-
a4- r4+
.marking { <a1-,r1+> <a2-,r2+> <a3-,r3+> <a4-,r4+> }
.end
";

/// Holds group 0 until three others have entered, for at most a number of turns.
#[derive(Drop)]
struct Holding {
    entered: AtomicU32,
    met: AtomicU32,
}

impl Gate for Holding {
    fn enter(&self, group: u32) {
        if group > 0 {
            self.entered.fetch_add(1, SeqCst);
            return;
        }
        for _turn in 0..TURNS {
            if self.entered.load(SeqCst) == 3 {
                self.met.store(1, SeqCst);
                return;
            }
        }
    }
}

#[test]
fn derives_the_other_groups_while_one_is_held(rt: HostRuntime) -> Result<(), Fail> {
    let spec = read_spec(rt.alloc(), HANDSHAKES)?;
    let gate = Holding {
        entered: AtomicU32::new(0),
        met: AtomicU32::new(0),
    };
    let answer = decompose(&rt, rt.alloc(), &spec, None, 2, &gate)?;
    assert_eq!(rt; answer.parts.len(), 4);
    assert_eq!(rt; gate.met.load(SeqCst), 1);
    Ok(())
}
