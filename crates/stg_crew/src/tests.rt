//! That workers run beside each other and derive each group once, and what one worker draws.

ghost use Rattle.std.specs.Prelude.{◌≤◌, length, IfOk, IfSome};
ghost use Rattle.stg_net.specs.declared.limits.TheConstants.Limits.{SPEC};
ghost use Rattle.stg_net.specs.Net.{IsWithin};
ghost use Rattle.stg_laws.specs.PlainGroups.{ArePlainGroups, AreClosed};
ghost use Rattle.stg_crew.specs.inner.Crew.{AreDerivable};

use super::*;
use astg_read::read_spec;
use std::alloc::Global;
use std::fmt::Write;
use std::process::Abort;
use std::sync::atomic::AtomicU32;
use std::sync::atomic::Ordering::SeqCst;
use std::test::Fail;
use std::thread::Threads;
use stg_conflict::no_auto_conflict;
use stg_derive::Part;
use stg_net::{NoMemory, Nums, Seq, Spec};
use stg_partition::{Group, plain_groups};

/// How often a gate looks whether others have entered.
const TURNS: u32 = 50_000_000;

/// Two handshakes that don't meet.
const HANDSHAKES: &[u8] = b".inputs r1 r2\n.outputs a1 a2\n.graph\n\
    r1+ a1+\na1+ r1-\nr1- a1-\na1- r1+\n\
    r2+ a2+\na2+ r2-\nr2- a2-\na2- r2+\n\
    .marking { <a1-,r1+> <a2-,r2+> }\n.end\n";

/// A specification with its plain groups.
#[derive(Drop)]
struct Case {
    spec: Spec,
    groups: Seq<Group>,
}

/// The case, where its groups can be derived.
fn check_case(spec: Spec, groups: Seq<Group>) -> Option<Case>
    requires within { IsWithin SPEC spec.net }
    requires groups { ArePlainGroups spec.net groups }
    requires closed { AreClosed spec.net groups }
    ensures derivable { IfSome result (λ case. AreDerivable case.spec.net case.groups) }
    ensures few { IfSome result (λ case. length case.groups ≤ 250) }
{
    match no_auto_conflict(spec.net()) {
        Ok(()) => {}
        Err(_) => return None,
    }
    if groups.len() > 250 {
        return None;
    }
    Some(Case { spec, groups })
}

fn read_case(rt: &impl Abort, alloc: Global, text: &[u8]) -> Result<Case, Fail>
    ensures derivable { IfOk result (λ case. AreDerivable case.spec.net case.groups) }
    ensures few { IfOk result (λ case. length case.groups ≤ 250) }
{
    let spec = read_spec(alloc, text)?;
    let groups = plain_groups(alloc, &spec)?;
    let case = check_case(spec, groups).expect(rt, "groups that can be derived");
    Ok(case)
}

/// The text of a pipeline of that many outputs between two inputs.
fn pipeline(alloc: Global, outputs: u32) -> Result<String, Fail>
    requires { outputs ≤ 248 }
{
    let last = outputs + 1;
    let mut text = format!(in alloc; ".model pipeline\n.inputs c0 c{last}\n.outputs")?;
    for i in 1..last {
        write!(text, " c{i}")?;
    }
    write!(text, "\n.graph\n")?;
    for i in 0..last {
        let j = i + 1;
        write!(text, "c{i}+ c{j}+\nc{j}+ c{i}-\nc{i}- c{j}-\nc{j}- c{i}+\n")?;
    }
    write!(text, ".marking {{")?;
    for i in 0..last {
        let j = i + 1;
        write!(text, " <c{j}-,c{i}+>")?;
    }
    write!(text, " }}\n.end\n")?;
    Ok(text)
}

/// Holds group 0 until three others have entered, for at most a number of turns.
#[derive(Drop)]
struct Holding {
    entered: AtomicU32,
    met: AtomicU32,
}

impl Gate for Holding {
    fn enter(&self, group: u32) {
        if group > 0 {
            self.entered.fetch_add(1, SeqCst);
            return;
        }
        for _turn in 0..TURNS {
            if self.entered.load(SeqCst) == 3 {
                self.met.store(1, SeqCst);
                return;
            }
        }
    }
}

#[test]
fn draws_the_other_groups_while_one_is_held(rt: HostRuntime) -> Result<(), Fail> {
    let alloc = rt.alloc();
    let case = read_case(&rt, alloc, pipeline(alloc, 4)?.as_bytes())?;
    let gate = Holding {
        entered: AtomicU32::new(0),
        met: AtomicU32::new(0),
    };
    let worked = work(&rt, alloc, &case.spec, case.groups.as_slice(), 2, &gate)?;
    assert_eq!(rt; worked.parts.len(), 4);
    assert_eq!(rt; worked.draws.count(), 6);
    assert_eq!(rt; gate.met.load(SeqCst), 1);
    Ok(())
}

/// Counts how often each group enters.
#[derive(Drop)]
struct Counting {
    entries: Vec<AtomicU32>,
}

impl Gate for Counting {
    fn enter(&self, group: u32) {
        if let Some(count) = self.entries.get(group as usize) {
            count.fetch_add(1, SeqCst);
        }
    }
}

fn make_counting(alloc: Global, groups: u32) -> Result<Counting, NoMemory> {
    let mut entries = Vec::new(alloc);
    for _group in 0..groups {
        entries.push(AtomicU32::new(0))?;
    }
    Ok(Counting { entries })
}

fn assert_entered_once(rt: &impl Abort, gate: &Counting) {
    for count in &gate.entries {
        assert_eq!(rt; count.load(SeqCst), 1);
    }
}

/// Each part has the size of that of an output in a pipeline.
fn assert_sizes(rt: &impl Abort, parts: &[Part]) {
    for part in parts {
        let size = (part.net.trans().len(), part.net.tokens().len());
        assert_eq!(rt; size, (6, 8));
        assert_eq!(rt; part.restored.len(), 0);
    }
}

/// That many workers derive each of 40 groups once.
fn assert_work<R: Abort + Threads + Sync>(
    rt: &R,
    alloc: Global,
    case: &Case,
    workers: u32,
) -> Result<(), Fail>
    requires workers { (1 ≤ workers) × (workers ≤ 64) }
    requires few { length case.now.groups ≤ 250 }
    requires derivable { AreDerivable case.now.spec.net case.now.groups }
{
    let gate = make_counting(alloc, 40)?;
    let groups = case.groups.as_slice();
    let worked = work(rt, alloc, &case.spec, groups, workers, &gate)?;
    assert_eq!(rt; worked.draws.count(), 40 + workers);
    assert_eq!(rt; worked.parts.len(), 40);
    assert_entered_once(rt, &gate);
    assert_sizes(rt, worked.parts.as_slice());
    Ok(())
}

#[test]
fn derives_each_group_once(rt: HostRuntime) -> Result<(), Fail> {
    let alloc = rt.alloc();
    let case = read_case(&rt, alloc, pipeline(alloc, 40)?.as_bytes())?;
    assert_work(&rt, alloc, &case, 2)?;
    assert_work(&rt, alloc, &case, 8)
}

/// The numbers of the groups that were drawn.
fn list_groups(alloc: Global, all: &[Drawn]) -> Result<Nums, NoMemory> {
    let mut groups = Seq::new(alloc);
    for drawn in all {
        groups.push(drawn.group)?;
    }
    Ok(groups)
}

#[test]
fn draws_all_groups_for_one_worker(rt: HostRuntime) -> Result<(), Fail> {
    let alloc = rt.alloc();
    let Case { spec, groups } = read_case(&rt, alloc, HANDSHAKES)?;
    let ClaimStart { claims, mut seat } = claims_for(alloc, groups.len() as u32)?;
    let mut worker = split_claims(&claims, &mut seat);
    let groups = groups.as_slice();
    let all = draw_all(alloc, &spec, groups, &claims, &mut worker, &OpenGate)?;
    join_claims(&claims, &mut seat, worker);
    let drawn = list_groups(alloc, all.as_slice())?;
    assert_eq!(rt; drawn.as_slice(), [0, 1].as_slice());
    assert_eq!(rt; close_claims(claims, seat).count(), 3);
    Ok(())
}

#[test]
fn draws_numbers_in_order(rt: HostRuntime) -> Result<(), Fail> {
    let ClaimStart { claims, mut seat } = claims_for(rt.alloc(), 2)?;
    let mut first = split_claims(&claims, &mut seat);
    let mut second = split_claims(&claims, &mut seat);
    assert_eq!(rt; draw(&claims, &mut first), 0);
    assert_eq!(rt; draw(&claims, &mut second), 1);
    assert_eq!(rt; draw(&claims, &mut first), 2);
    assert_eq!(rt; draw(&claims, &mut second), 3);
    join_claims(&claims, &mut seat, second);
    join_claims(&claims, &mut seat, first);
    assert_eq!(rt; close_claims(claims, seat).count(), 4);
    Ok(())
}
