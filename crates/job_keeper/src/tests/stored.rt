//! What is put into a keeper and got back.

use super::*;
use std::process::Abort;

// Adds b and a, b again, and removes b.
fn keep_two<K: Keeper>(rt: &(impl Abort + AllocGlobal), keeper: &mut K) -> Result<(), Fail> {
    let alloc = rt.alloc();
    let b = project(alloc, b"b", b"text of b", &[b"b1", b"b2"])?;
    let a = project(alloc, b"a", b"", &[b"", b"a\0\xff"])?;
    let again = project(alloc, b"b", b"other text", &[])?;
    assert_eq!(rt; keeper.add(b), Ok(true));
    assert_eq!(rt; keeper.add(a), Ok(true));
    assert_eq!(rt; keeper.add(again), Ok(false));
    assert_eq!(rt; listed(alloc, keeper)?.as_slice(), b"b a ".as_slice());
    let found = keeper.get(b"b")?;
    let wanted = project(alloc, b"b", b"text of b", &[b"b1", b"b2"])?;
    assert!(rt; is_same(&found, &wanted));
    assert_eq!(rt; keeper.remove(b"b"), Ok(true));
    assert_eq!(rt; keeper.remove(b"b"), Ok(false));
    assert!(rt; keeper.get(b"b")?.is_none());
    assert_eq!(rt; listed(alloc, keeper)?.as_slice(), b"a ".as_slice());
    Ok(())
}

#[test]
fn keeps_projects_in_a_file(rt: HostRuntime) -> Result<(), Fail> {
    let path = "job-keeper-file.tmp";
    clear(&rt, path)?;
    let mut keeper = open(&rt, Some(path))?;
    keep_two(&rt, &mut keeper)?;

    // Another keeper can't have the file meanwhile.
    assert!(rt; matches!(open(&rt, Some(path)), Err(KeepError::Failed)));

    // To drop a keeper writes nothing, as where its process is killed.
    drop(keeper);
    let mut keeper = open(&rt, Some(path))?;
    assert_eq!(rt;
        listed(rt.alloc(), &mut keeper)?.as_slice(),
        b"a ".as_slice()
    );
    let found = keeper.get(b"a")?;
    let wanted = project(rt.alloc(), b"a", b"", &[b"", b"a\0\xff"])?;
    assert!(rt; is_same(&found, &wanted));
    drop(keeper);
    clear(&rt, path)?;
    Ok(())
}

#[test]
fn keeps_projects_in_memory(rt: HostRuntime) -> Result<(), Fail> {
    keep_two(&rt, &mut open(&rt, None)?)?;
    keep_two(&rt, &mut MemKeeper::new(rt.alloc(), Seq::new(rt.alloc())))?;
    Ok(())
}

// So many bytes, in which neighbours differ.
fn long_text(alloc: Global, count: usize) -> Result<Text, NoMemory> {
    let mut bytes = Vec::with_capacity(alloc, count)?;
    for i in 0..count {
        bytes.push((i % 251) as u8)?;
    }
    Ok(Seq::from_vec(bytes))
}

#[test]
fn keeps_a_large_project(rt: HostRuntime) -> Result<(), Fail> {
    let path = "job-keeper-large.tmp";
    clear(&rt, path)?;
    let text = long_text(rt.alloc(), 1 << 20)?;
    let part = long_text(rt.alloc(), 13 << 20)?;
    let wanted = project(
        rt.alloc(),
        b"large",
        text.as_slice(),
        &[part.as_slice(), b"2"],
    )?;
    let given = project(
        rt.alloc(),
        b"large",
        text.as_slice(),
        &[part.as_slice(), b"2"],
    )?;
    let mut keeper = open(&rt, Some(path))?;
    assert_eq!(rt; keeper.add(given), Ok(true));
    drop(keeper);
    let found = open(&rt, Some(path))?.get(b"large")?;
    assert!(rt; is_same(&found, &wanted));
    clear(&rt, path)?;
    Ok(())
}

#[test]
fn fails_where_it_is_told_to(rt: HostRuntime) -> Result<(), Fail> {
    let alloc = rt.alloc();
    let mut keeper = MemKeeper::new(alloc, Seq::from_slice(alloc, &[2, 3])?);
    assert_eq!(rt; keeper.add(project(alloc, b"a", b"", &[])?), Ok(true));
    assert_eq!(rt;
        keeper.add(project(alloc, b"b", b"", &[])?),
        Err(KeepError::Failed)
    );
    assert_eq!(rt; keeper.remove(b"a"), Err(KeepError::Failed));
    assert_eq!(rt; listed(alloc, &mut keeper)?.as_slice(), b"a ".as_slice());
    Ok(())
}

// The names in the keeper over that file of a vault that has the project `old` in `a.db`.
fn old_names(alloc: Global, file: Option<&str>, fails: &[u32]) -> Result<Text, KeepError> {
    let mut projects = Seq::new(alloc);
    projects.push(project(alloc, b"old", b"", &[])?)?;
    if !are_projects(projects.as_slice()) {
        return Err(KeepError::Failed);
    }
    let name = Seq::from_slice(alloc, b"a.db")?;
    let fails = Seq::from_slice(alloc, fails)?;
    let mut vault = MemVault::new(alloc, Some(name), projects, fails);
    listed(alloc, &mut vault.keeper(file)?)
}

#[test]
fn has_projects_in_its_own_file_alone(rt: HostRuntime) -> Result<(), Fail> {
    let alloc = rt.alloc();
    assert_eq!(rt;
        old_names(alloc, Some("a.db"), &[])?.as_slice(),
        b"old ".as_slice()
    );
    assert_eq!(rt;
        old_names(alloc, Some("b.db"), &[])?.as_slice(),
        b"".as_slice()
    );
    assert_eq!(rt; old_names(alloc, None, &[])?.as_slice(), b"".as_slice());
    assert!(rt; old_names(alloc, Some("a.db"), &[1]).is_err());
    Ok(())
}
