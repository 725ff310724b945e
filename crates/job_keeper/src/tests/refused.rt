//! Databases that others made.

use super::*;
use sqlite::Connection;

/// The tables of version 1 and its number, by a text of the tests' own.
const META: &str = "create table meta(version integer not null);";

const PROJECTS: &str = "create table projects (
    id integer primary key autoincrement,
    name text not null unique,
    body blob not null
);";

const PARTS: &str = "create table parts (project integer not null
    references projects ( id ) on delete cascade, k integer not null, body blob not null,
    primary key(project,k));";

const NUMBER: &str = "insert into meta values (1);";

/// Databases that aren't of version 1, each by the texts that make it.
const OTHERS: &[(&str, &[&str])] = &[
    (
        "of another kind",
        &["create table note (id integer primary key, body text);"],
    ),
    (
        "of version 2",
        &[META, PROJECTS, PARTS, "insert into meta values (2);"],
    ),
    ("without a version", &[META, PROJECTS, PARTS]),
    (
        "with two versions",
        &[META, PROJECTS, PARTS, NUMBER, NUMBER],
    ),
    (
        "with a text for a version",
        &[META, PROJECTS, PARTS, "insert into meta values ('one');"],
    ),
    ("without parts", &[META, PROJECTS, NUMBER]),
    ("without meta", &[PROJECTS, PARTS]),
    (
        "with a further table",
        &[META, PROJECTS, PARTS, NUMBER, "create table more (x);"],
    ),
    (
        "with an index",
        &[
            META,
            PROJECTS,
            PARTS,
            NUMBER,
            "create index ks on parts (k);",
        ],
    ),
    (
        "with names that needn't differ",
        &[
            META,
            "create table projects (id integer primary key autoincrement, name text not null, \
             body blob not null);",
            PARTS,
            NUMBER,
        ],
    ),
];

// Makes a database, all of it in its file.
fn make(rt: &HostRuntime, path: &str, texts: &[&str]) -> Result<(), Fail> {
    clear(rt, path)?;
    let mut conn = Connection::open(rt, path)?;
    for text in texts {
        conn.execute_batch(text)?;
    }
    conn.close()?;
    Ok(())
}

// Whether a vault refuses a file as a fault, and leaves it.
fn is_refused(rt: &HostRuntime, path: &str) -> Result<bool, Fail> {
    let before = fs::read(rt, path)?;
    let refused = matches!(open(rt, Some(path)), Err(KeepError::Failed));
    let after = fs::read(rt, path)?;
    Ok(refused && after.as_slice() == before.as_slice())
}

#[test]
fn refuses_every_other_database_and_leaves_it(rt: HostRuntime) -> Result<(), Fail> {
    let path = "job-keeper-other.tmp";
    for (row, texts) in OTHERS {
        make(&rt, path, texts)?;
        assert!(rt; is_refused(&rt, path)?, "{row}");
    }
    clear(&rt, path)?;
    Ok(())
}

#[test]
fn refuses_every_other_file_and_leaves_it(rt: HostRuntime) -> Result<(), Fail> {
    let path = "job-keeper-text.tmp";
    clear(&rt, path)?;
    let texts: [&[u8]; 5] = [
        b"",
        b"\n",
        b"S",
        b"a b\nSQLite format 3\0",
        b"SQLite format 3\0",
    ];
    for text in texts {
        fs::write(&rt, path, text)?;
        assert!(rt; is_refused(&rt, path)?, "{} bytes", text.len());
    }
    clear(&rt, path)?;
    assert!(rt; open(&rt, Some("no/such/folder")).is_err());
    assert!(rt; open(&rt, Some(".")).is_err());
    Ok(())
}

/// Rows, and whether the list and the project `a` are faults.
const ROWS: &[(&str, bool, bool)] = &[
    (
        "insert into projects values (7, 'b', x'00'), (9, 'a', x'');
      insert into parts values (9, 2, x'32'), (9, 1, x'31');",
        false,
        false,
    ),
    (
        "insert into projects values (1, 'a', x''), (2, 'b c', x'');",
        true,
        false,
    ),
    (
        "insert into projects values (1, 'a', x''), (2, x'62', x'');",
        true,
        false,
    ),
    ("insert into projects values (1, 'a', 'text');", false, true),
    (
        "insert into projects values (1, 'a', x'');
      insert into parts values (1, 2, x'');",
        false,
        true,
    ),
    (
        "insert into projects values (1, 'a', x'');
      insert into parts values (1, 'one', x'');",
        false,
        true,
    ),
    (
        "insert into projects values (1, 'a', x'');
      insert into parts values (1, 1, 'text');",
        false,
        true,
    ),
];

#[test]
fn takes_rows_of_its_form_alone(rt: HostRuntime) -> Result<(), Fail> {
    let path = "job-keeper-rows.tmp";
    for (rows, list_fails, get_fails) in ROWS {
        make(&rt, path, &[META, PROJECTS, PARTS, NUMBER, rows])?;
        let mut keeper = open(&rt, Some(path))?;
        assert_eq!(rt; keeper.list().is_err(), *list_fails, "{rows}");
        assert_eq!(rt; keeper.get(b"a").is_err(), *get_fails, "{rows}");
    }
    clear(&rt, path)?;
    Ok(())
}

#[test]
fn takes_tables_and_order_as_others_made_them(rt: HostRuntime) -> Result<(), Fail> {
    let path = "job-keeper-made.tmp";
    make(&rt, path, &[META, PROJECTS, PARTS, NUMBER, ROWS[0].0])?;
    let mut keeper = open(&rt, Some(path))?;
    assert_eq!(rt;
        listed(rt.alloc(), &mut keeper)?.as_slice(),
        b"b a ".as_slice()
    );
    let found = keeper.get(b"a")?;
    let wanted = project(rt.alloc(), b"a", b"", &[b"1", b"2"])?;
    assert!(rt; is_same(&found, &wanted));
    clear(&rt, path)?;
    Ok(())
}
