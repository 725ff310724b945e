//! Runs with a partition, logs, workers and a pipeline. Each file and line was computed by a separate
//! program.

use crate::status::Status;
use crate::tests::rows::{Given, PARTITIONED};
use crate::tests::texts::{TWO, TWO_PART};

const LOGGED: &[&str] = &["decompose", "--steps", "spec.g"];

// A run of these words over these texts refuses, with these printed bytes.
macro_rules! refused {
    ($text:expr, $partition:expr, $printed:expr) => {
        Given {
            words: PARTITIONED,
            text: $text,
            partition: $partition,
            fails: (0, 0, 0),
            status: Status::Refused,
            files: &[],
            printed: $printed,
        }
    };
}

// Nothing is printed, and these files stand.
macro_rules! stopped {
    ($words:expr, $text:expr, $partition:expr, $fails:expr, $status:expr, $files:expr) => {
        Given {
            words: $words,
            text: $text,
            partition: $partition,
            fails: $fails,
            status: $status,
            files: $files,
            printed: b"",
        }
    };
}

const BUS: &[u8] = b".model vme
.inputs dsr ldtack
.outputs lds d dtack
.graph
dsr+ lds+
lds+ ldtack+
ldtack+ d+
d+ dtack+
dtack+ dsr-
dsr- d-
d- dtack- lds-
dtack- dsr+
lds- ldtack-
ldtack- lds+
.marking { <dtack-,dsr+> <ldtack-,lds+> }
.end
";

const CLOSURE: &[u8] = b".outputs x y z
.graph
p x+ y+
q y+ z+
.marking { p q }
.end
";

const INTERNAL: &[u8] = b".inputs a
.outputs x
.internal m
.graph
a+ m+
m+ x+
x+ a-
a- m-
m- x-
x- a+
.marking { <x-,a+> }
.end
";

const TWO_LOG: &[u8] = b"contract r2+ type1 places 1
contract a2+ type1 places 1
contract r2- type1 places 1
drop place 10 loop
drop dummy a2- loop
end
";

/// A log beside each part, after its component text.
pub const LOGS: &[Given] = &[
    Given {
        words: LOGGED,
        text: TWO,
        partition: None,
        fails: (0, 0, 0),
        status: Status::Done,
        files: &[
            ("part1.g", TWO_PART),
            ("part1.steps", TWO_LOG),
            (
                "part2.g",
                b".model part2
.inputs r2
.outputs a2
.graph
r2+ p1
a2+ p2
r2- p3
a2- p4
p1 a2+
p2 r2-
p3 a2-
p4 r2+
.marking { p4 }
.end
",
            ),
            (
                "part2.steps",
                b"contract r1+ type1 places 1
contract a1+ type1 places 1
contract r1- type1 places 1
drop place 10 loop
drop dummy a1- loop
end
",
            ),
        ],
        printed: b"part 1 own 1 inputs 1 transitions 4 places 4 restored 0
part 2 own 1 inputs 1 transitions 4 places 4 restored 0
done 2
",
    },
    stopped!(
        LOGGED,
        TWO,
        None,
        (0, 2, 0),
        Status::WriteFault,
        &[("part1.g", TWO_PART)]
    ),
    stopped!(
        LOGGED,
        TWO,
        None,
        (0, 3, 0),
        Status::WriteFault,
        &[("part1.g", TWO_PART), ("part1.steps", TWO_LOG)]
    ),
];

/// Groups that a partition names.
pub const PARTITIONS: &[Given] = &[
    Given {
        words: PARTITIONED,
        text: BUS,
        partition: Some(b"lds d\ndtack\n"),
        fails: (0, 0, 0),
        status: Status::Done,
        files: &[
            (
                "part1.g",
                b".model part1
.inputs dsr ldtack
.outputs lds d
.graph
dsr+ p1
lds+ p2
ldtack+ p3
d+ p4
dsr- p5
d- p6 p7
lds- p8
ldtack- p9
p1 lds+
p2 ldtack+
p3 d+
p4 dsr-
p5 d-
p6 lds-
p7 dsr+
p8 ldtack-
p9 lds+
.marking { p7 p9 }
.end
",
            ),
            (
                "part2.g",
                b".model part2
.inputs d
.outputs dtack
.graph
d+ p1
dtack+ p2
d- p3
dtack- p4
p1 dtack+
p2 d-
p3 dtack-
p4 d+
.marking { p4 }
.end
",
            ),
        ],
        printed: b"part 1 own 2 inputs 2 transitions 8 places 9 restored 0
part 2 own 1 inputs 1 transitions 4 places 4 restored 0
done 2
",
    },
    Given {
        words: PARTITIONED,
        text: INTERNAL,
        partition: Some(b"x m"),
        fails: (0, 0, 0),
        status: Status::Done,
        files: &[(
            "part1.g",
            b".model part1
.inputs a
.outputs x
.internal m
.graph
a+ p1
m+ p2
x+ p3
a- p4
m- p5
x- p6
p1 m+
p2 x+
p3 a-
p4 m-
p5 x-
p6 a+
.marking { p6 }
.end
",
        )],
        printed: b"part 1 own 2 inputs 1 transitions 6 places 6 restored 0
done 1
",
    },
    refused!(
        BUS,
        Some(b"lds d\n"),
        b"refused partition OutputMissing dtack\n"
    ),
    refused!(
        BUS,
        Some(b"lds lds\n"),
        b"refused partition OutputTwice line 1\n"
    ),
    refused!(
        BUS,
        Some(b"# inputs\ndsr\n"),
        b"refused partition UnknownOutput line 2\n"
    ),
    refused!(
        BUS,
        Some(b"lds\x01\n"),
        b"refused partition BadLine line 1\n"
    ),
    refused!(
        CLOSURE,
        Some(b"x y\nz\n"),
        b"refused partition SplitConflict y z q\n"
    ),
    // The text of the specification is refused before a partition is read.
    refused!(b"", None, b"refused NoGraph line 1\n"),
];

/// A partition that can't be read. A text of fewer than 200 bytes takes a selection and three reads.
pub const LACKING: &[Given] = &[
    stopped!(PARTITIONED, TWO, None, (0, 0, 0), Status::ReadFault, &[]),
    stopped!(
        PARTITIONED,
        TWO,
        Some(b"a1\na2\n"),
        (5, 0, 0),
        Status::ReadFault,
        &[]
    ),
    stopped!(
        PARTITIONED,
        TWO,
        Some(b"a1\na2\n"),
        (7, 0, 0),
        Status::ReadFault,
        &[]
    ),
];

/// Pipelines, whose parts are summed up.
pub const PIPELINES: &[Given] = &[
    Given {
        words: &["measure", "1"],
        text: b"",
        partition: None,
        fails: (1, 1, 0),
        status: Status::Done,
        files: &[],
        printed: b"measure 1 parts 1 transitions 6 places 8 restored 0\n",
    },
    Given {
        words: &["measure", "--workers=3", "40"],
        text: b"",
        partition: None,
        fails: (1, 1, 0),
        status: Status::Done,
        files: &[],
        printed: b"measure 40 parts 40 transitions 240 places 320 restored 0\n",
    },
    stopped!(
        &["measure", "2"],
        b"",
        None,
        (0, 0, 1),
        Status::PrintFault,
        &[]
    ),
];
