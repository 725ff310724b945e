//! Texts with how a run over each has to end.

use crate::status::Status;
use crate::tests::rows::{NAMED, Row};

// The text is refused with these printed bytes, and no file.
macro_rules! refused {
    ($text:expr, $printed:expr) => {
        Row {
            words: NAMED,
            text: $text,
            fails: (0, 0, 0),
            room: 1000,
            status: Status::Refused,
            files: 0,
            parts: &[],
            printed: $printed,
        }
    };
}

// The text has so many parts, whose first files are these, and these bytes are printed.
macro_rules! done {
    ($text:expr, $files:expr, $parts:expr, $printed:expr) => {
        Row {
            words: NAMED,
            text: $text,
            fails: (0, 0, 0),
            room: 1000,
            status: Status::Done,
            files: $files,
            parts: $parts,
            printed: $printed,
        }
    };
}

pub(super) use done;

// These words aren't of the form, and the usage is printed.
macro_rules! other_words {
    ($words:expr) => {
        Row {
            words: $words,
            text: TWO,
            fails: (0, 0, 0),
            room: 1000,
            status: Status::BadWords,
            files: 0,
            parts: &[],
            printed: b"usage: desij decompose SPEC [--workers N] [--partition FILE] [--steps]
       desij measure N [--workers N]
       desij serve ADDR COUNT [--database FILE]
",
        }
    };
}

// The call of that number of the source, the shelf or the sink fails, and nothing is put or printed.
macro_rules! fault {
    ($words:expr, $fails:expr, $status:expr) => {
        Row {
            words: $words,
            text: TWO,
            fails: $fails,
            room: 1000,
            status: $status,
            files: 0,
            parts: &[],
            printed: b"",
        }
    };
}

// After these printed bytes the sink has no more room.
macro_rules! cut_off {
    ($words:expr, $text:expr, $files:expr, $printed:expr) => {
        Row {
            words: $words,
            text: $text,
            fails: (0, 0, 0),
            room: $printed.len() as u32,
            status: Status::PrintFault,
            files: $files,
            parts: &[],
            printed: $printed,
        }
    };
}

// The one line of a part with one own signal, one input, two transitions and a place.
const ONE_PART: &[u8] = b"part 1 own 1 inputs 1 transitions 2 places 1 restored 0\ndone 1\n";

pub const TWO: &[u8] = b".inputs r1 r2
.outputs a1 a2
.graph
r1+ a1+
a1+ r1-
r1- a1-
a1- r1+
r2+ a2+
a2+ r2-
r2- a2-
a2- r2+
.marking { <a1-,r1+> <a2-,r2+> }
.end
";

// The net of the first part of `TWO`: the other handshake is hidden, and all of it goes.
pub const TWO_PART: &[u8] = b".model part1
.inputs r1
.outputs a1
.graph
r1+ p1
a1+ p2
r1- p3
a1- p4
p1 a1+
p2 r1-
p3 a1-
p4 r1+
.marking { p4 }
.end
";

const C_ELEMENT: &[u8] = b".model c
.inputs a b
.outputs c
.graph
a+ c+
b+ c+
c+ a- b-
a- c-
b- c-
c- a+ b+
.marking { <c-,a+> <c-,b+> }
.end
";

const C_ELEMENT_PART: &[u8] = b".model part1
.inputs a b
.outputs c
.graph
a+ p1
c+ p2 p3
b+ p4
a- p5
b- p6
c- p7 p8
p1 c+
p2 a-
p3 b-
p4 c+
p5 c-
p6 c-
p7 a+
p8 b+
.marking { p7 p8 }
.end
";

// Each part has its file and its line.
pub const PARTS: &[Row] = &[
    done!(
        C_ELEMENT,
        1,
        &[C_ELEMENT_PART],
        b"part 1 own 1 inputs 2 transitions 6 places 8 restored 0\ndone 1\n"
    ),
    done!(
        TWO,
        2,
        &[TWO_PART],
        b"part 1 own 1 inputs 1 transitions 4 places 4 restored 0
part 2 own 1 inputs 1 transitions 4 places 4 restored 0
done 2
"
    ),
];

// Words that aren't of the form.
pub const OTHER_WORDS: &[Row] = &[
    other_words!(&[]),
    other_words!(&["decompose"]),
    other_words!(&["decompose", ""]),
    other_words!(&["decompose", "-spec.g"]),
    other_words!(&["decompose", "spec.g", "spec.g"]),
    other_words!(&["decompose", "spec.g", "--steps", "--steps"]),
    other_words!(&["decompose", "spec.g", "--workers", "0"]),
    other_words!(&["decompose", "--", "spec.g"]),
    other_words!(&["measure", "spec.g"]),
    other_words!(&["measure", "249"]),
    other_words!(&["spec.g", "decompose"]),
    other_words!(&["serve", "spec.g", "1"]),
];

// The first fault ends the run; the files before it stand.
pub const FAULTS: &[Row] = &[
    fault!(&["decompose", "other.g"], (0, 0, 0), Status::ReadFault),
    fault!(NAMED, (1, 0, 0), Status::ReadFault),
    fault!(NAMED, (3, 0, 0), Status::ReadFault),
    fault!(NAMED, (4, 0, 0), Status::ReadFault),
    fault!(NAMED, (0, 1, 0), Status::WriteFault),
    Row {
        words: NAMED,
        text: TWO,
        fails: (0, 2, 0),
        room: 1000,
        status: Status::WriteFault,
        files: 1,
        parts: &[TWO_PART],
        printed: b"",
    },
    // A sink that failed isn't written to again, though its second call would succeed. No clause can
    // tell: with a second write the sink would hold a prefix of the text too, and its count of
    // faults has risen anyhow.
    Row {
        words: NAMED,
        text: TWO,
        fails: (0, 0, 1),
        room: 1000,
        status: Status::PrintFault,
        files: 2,
        parts: &[],
        printed: b"",
    },
    cut_off!(NAMED, TWO, 2, b"part "),
    cut_off!(NAMED, b"", 0, b"refused"),
    fault!(&[], (0, 0, 1), Status::PrintFault),
    cut_off!(&[], TWO, 0, b"usage"),
];

// A line outside a marking breaks the rule that is printed.
pub const LINES: &[Row] = &[
    refused!(
        b".inputs a\n.outputs x\n.graph\na+ x+\x01\n.marking { }\n.end\n",
        b"refused BadByte line 4\n"
    ),
    refused!(
        b".inputs a\n.outputs x\n.graph\na+ x+\n.capacity p=1\n.end\n",
        b"refused UnknownDirective line 5\n"
    ),
    refused!(
        b".inputs a\n.outputs x\n.graph\na+ x+\n.inputs b\n.end\n",
        b"refused OutOfOrder line 5\n"
    ),
    refused!(
        b".inputs a\n.outputs x\n.graph\na+ x+/y\n.marking { }\n.end\n",
        b"refused BadName line 4\n"
    ),
    refused!(
        b".inputs a\n.outputs a\n.graph\na+ x+\n.marking { }\n.end\n",
        b"refused DeclaredTwice line 2\n"
    ),
    refused!(
        b".inputs a\n.outputs x\n.graph\na+ y+\n.marking { }\n.end\n",
        b"refused UnknownSignal line 4\n"
    ),
    refused!(
        b".inputs a\n.outputs x\n.graph\na+ x\n.marking { }\n.end\n",
        b"refused NoEdge line 4\n"
    ),
    refused!(
        b".inputs a\n.outputs x\n.graph\np q\n.marking { }\n.end\n",
        b"refused BadArc line 4\n"
    ),
    refused!(
        b".inputs a\n.outputs x\n.graph\na+ x+ x+/0\n.marking { }\n.end\n",
        b"refused RepeatedArc line 4\n"
    ),
    refused!(
        b".inputs a\n.outputs x\n.graph\na+ p(1001)\n.marking { }\n.end\n",
        b"refused BadWeight line 4\n"
    ),
    refused!(
        b".inputs a\n.outputs x\n.graph\na+ x+(2)\n.marking { }\n.end\n",
        b"refused BadWeight line 4\n"
    ),
];

// A marking is bad.
pub const MARKINGS: &[Row] = &[
    refused!(
        b".inputs a\n.outputs x\n.graph\na+ x+\n.marking { p }\n.end\n",
        b"refused BadMarking line 5\n"
    ),
    refused!(
        b".inputs a\n.outputs x\n.graph\na+ x+\n.marking { <a+,x+>=1001 }\n.end\n",
        b"refused BadMarking line 5\n"
    ),
    refused!(
        b".inputs a\n.outputs x\n.graph\na+ x+\n.marking { <a+,x+> <a+/0,x+> }\n.end\n",
        b"refused BadMarking line 5\n"
    ),
    refused!(
        b".inputs a\n.outputs x\n.graph\na+ x+\n.marking {\n.end\n",
        b"refused BadMarking line 6\n"
    ),
];

// What is bad shows only at the end of a text, of its header, or of the whole graph.
pub const WHOLE: &[Row] = &[
    refused!(b".inputs a\n.end\n", b"refused NoGraph line 2\n"),
    refused!(b"", b"refused NoGraph line 1\n"),
    refused!(
        b".inputs a\n.outputs x\n.graph\na+ x+\n.marking { }\n",
        b"refused NoEnd line 6\n"
    ),
    refused!(
        b".inputs a\n.outputs x\n.dummy e\n.graph\na+ x+\n.marking { }\n.end\n",
        b"refused HasDummy line 3\n"
    ),
    refused!(
        b".inputs a\n.graph\np a+ a+/1\n.end\n",
        b"refused Clash a+ a+/1 p\n"
    ),
];

// Accepted texts, each with the text of its one part.
pub const FREE: &[Row] = &[
    done!(
        b".inputs a\n.outputs x\n.graph\na+ x+\n.marking { }\n.end\n",
        1,
        &[b".model part1\n.inputs a\n.outputs x\n.graph\na+ p1\nx+\np1 x+\n.marking { }\n.end\n"],
        ONE_PART
    ),
    done!(
        b".inputs a\n.outputs x\n.graph\na+/0 x+\n.marking { }\n.end\n",
        1,
        &[b".model part1\n.inputs a\n.outputs x\n.graph\na+ p1\nx+\np1 x+\n.marking { }\n.end\n"],
        ONE_PART
    ),
    done!(
        b".inputs a\n.outputs x\n.graph\na+ x+\n.marking {\n<a+ , x+> = 2\n}\n.end\n",
        1,
        &[
            b".model part1\n.inputs a\n.outputs x\n.graph\na+ p1\nx+\np1 x+\n.marking { p1=2 }\n.end\n"
        ],
        ONE_PART
    ),
    done!(
        b".inputs a\n.outputs x\n.graph\na+ x+\n.end\n",
        1,
        &[b".model part1\n.inputs a\n.outputs x\n.graph\na+ p1\nx+\np1 x+\n.marking { }\n.end\n"],
        ONE_PART
    ),
    done!(
        b".inputs a\n.outputs x\n.graph\na+ x+\n.marking { }\n.end here\n\x01\n",
        1,
        &[b".model part1\n.inputs a\n.outputs x\n.graph\na+ p1\nx+\np1 x+\n.marking { }\n.end\n"],
        ONE_PART
    ),
    done!(
        b".inputs a\r\n.outputs x\r\n.graph\r\na+ x+\r\n.marking { }\r\n.end\r\n",
        1,
        &[b".model part1\n.inputs a\n.outputs x\n.graph\na+ p1\nx+\np1 x+\n.marking { }\n.end\n"],
        ONE_PART
    ),
    done!(
        b".name t\n.inputs\n.inputs a\n.outputs x\n.graph\na+ x+\n.marking { }\n.end\n",
        1,
        &[b".model part1\n.inputs a\n.outputs x\n.graph\na+ p1\nx+\np1 x+\n.marking { }\n.end\n"],
        ONE_PART
    ),
    done!(
        b".inputs a\n.outputs x\n.graph\na+ p(1000)\np x+(1000)\n.marking { }\n.end\n",
        1,
        &[
            b".model part1\n.inputs a\n.outputs x\n.graph\na+ p1(1000)\nx+\np1 x+(1000)\n.marking { }\n.end\n"
        ],
        ONE_PART
    ),
];

// Accepted texts, each with the number of its parts and the printed lines.
pub const GROUPS: &[Row] = &[
    done!(
        b".inputs a\n.graph\na+ a-\na- a+\n.marking { <a-,a+> }\n.end\n",
        0,
        &[],
        b"done 0\n"
    ),
    done!(
        b".inputs a\n.outputs x\n.graph\na+ a-\na- a+\n.marking { <a-,a+> }\n.end\n",
        1,
        &[b".model part1\n.outputs x\n.graph\n.marking { }\n.end\n"],
        b"part 1 own 1 inputs 0 transitions 0 places 0 restored 0\ndone 1\n"
    ),
    done!(
        b".inputs a b\n.outputs x\n.graph\ns b+\nb+ p\np a+ x+\n.marking { s }\n.end\n",
        1,
        &[],
        b"part 1 own 1 inputs 2 transitions 3 places 2 restored 0\ndone 1\n"
    ),
    done!(
        b".outputs x y z\n.graph\np x+ y+\nq y+ z+\n.marking { p q }\n.end\n",
        1,
        &[],
        b"part 1 own 3 inputs 0 transitions 3 places 2 restored 0\ndone 1\n"
    ),
    done!(
        b".inputs a\n.outputs x\n.graph\np a+\nq a+/1\na+ r\na+/1 r\nr x+\n.marking { p q }\n.end\n",
        1,
        &[],
        b"part 1 own 1 inputs 1 transitions 3 places 3 restored 0\ndone 1\n"
    ),
    done!(
        b".inputs a\n.outputs x\n.internal m\n.graph\na+ m+\nm+ x+\nx+ a-\na- m-\nm- x-\nx- a+\n.marking { <x-,a+> }\n.end\n",
        2,
        &[],
        b"part 1 own 1 inputs 1 transitions 4 places 4 restored 0\npart 2 own 1 inputs 1 transitions 4 places 4 restored 0\ndone 2\n"
    ),
];
