//! Requests that come to a run that serves, with the replies that have to be written.

use crate::status::Status;
use crate::tests::sitting::{Came, Sitting};

// A PUT of a C-element.
const PUT: &[u8] =
    b"PUT /projects/celem HTTP/1.1\r\nContent-Length: 115\r\n\r\n.model c\n.inputs a b\n\
  .outputs c\n.graph\na+ c+\nb+ c+\nc+ a- b-\na- c-\nb- c-\nc- a+ b+\n.marking { \
  <c-,a+> <c-,b+> }\n.end\n";

// A GET of all names.
const LIST: &[u8] = b"GET /projects HTTP/1.1\r\n\r\n";

const ADDED: &[u8] =
    b"HTTP/1.1 201 Created\r\nContent-Type: application/json\r\nContent-Length: 26\r\n\
  Connection: close\r\n\r\n{\"name\":\"celem\",\"parts\":1}";

const STANDS: &[u8] = b"HTTP/1.1 200 OK\r\nContent-Type: application/json\r\nContent-Length: 26\r\n\
  Connection: close\r\n\r\n{\"name\":\"celem\",\"parts\":1}";

const LISTED: &[u8] = b"HTTP/1.1 200 OK\r\nContent-Type: application/json\r\nContent-Length: 22\r\n\
  Connection: close\r\n\r\n{\"projects\":[\"celem\"]}";

const OLD: &[u8] = b"HTTP/1.1 200 OK\r\nContent-Type: application/json\r\nContent-Length: 20\r\n\
  Connection: close\r\n\r\n{\"projects\":[\"old\"]}";

const NONE: &[u8] = b"HTTP/1.1 200 OK\r\nContent-Type: application/json\r\nContent-Length: 15\r\n\
  Connection: close\r\n\r\n{\"projects\":[]}";

const MISSING: &[u8] =
    b"HTTP/1.1 404 Not Found\r\nContent-Type: application/json\r\nContent-Length: 19\r\n\
  Connection: close\r\n\r\n{\"error\":\"missing\"}";

const BAD: &[u8] =
    b"HTTP/1.1 400 Bad Request\r\nContent-Type: application/json\r\nContent-Length: 19\r\n\
  Connection: close\r\n\r\n{\"error\":\"request\"}";

/// A session over projects in memory, one request a link. The last link but one sends nothing, and
/// the first call of the last one fails.
pub const SESSION: &[Sitting] = &[Sitting {
    words: &["serve", "here", "15"],
    file: None,
    coming: &[
        (PUT, 0),
        (PUT, 0),
        (
            b"PUT /projects/celem HTTP/1.1\r\nContent-Length: 32\r\n\r\n.inputs a\n.graph\np a+ \
              a+/1\n.end\n",
            0,
        ),
        (
            b"PUT /projects/bad HTTP/1.1\r\nContent-Length: 32\r\n\r\n.inputs a\n.graph\np a+ \
              a+/1\n.end\n",
            0,
        ),
        (LIST, 0),
        (b"GET /projects/celem/parts/1 HTTP/1.1\r\n\r\n", 0),
        (b"GET /projects/celem/parts/0 HTTP/1.1\r\n\r\n", 0),
        (b"GET /projects/celem/parts/2 HTTP/1.1\r\n\r\n", 0),
        (b"POST /projects HTTP/1.1\r\n\r\n", 0),
        (b"PUT /projects/celem HTTP/1.1\r\n\r\n", 0),
        (
            b"PUT /projects/celem HTTP/1.1\r\nContent-Length: 1048577\r\n\r\n",
            0,
        ),
        (b"DELETE /projects/celem HTTP/1.1\r\n\r\n", 0),
        (b"DELETE /projects/celem HTTP/1.1\r\n\r\n", 0),
        (b"", 0),
        (LIST, 1),
    ],
    fails: (0, 0, 0),
    status: Status::Done,
    printed: b"served 15\n",
    replies: &[
        ADDED,
        STANDS,
        b"HTTP/1.1 409 Conflict\r\nContent-Type: application/json\r\nContent-Length: 17\r\n\
          Connection: close\r\n\r\n{\"error\":\"taken\"}",
        b"HTTP/1.1 422 Unprocessable Entity\r\nContent-Type: application/json\r\n\
          Content-Length: 60\r\nConnection: close\r\n\r\n{\"error\":\"Clash\",\"line\":0,\"\
          place\":\"p\",\"t1\":\"a+\",\"t2\":\"a+/1\"}",
        LISTED,
        b"HTTP/1.1 200 OK\r\nContent-Type: text/plain\r\nContent-Length: 157\r\nConnection: \
          close\r\n\r\n.model part1\n.inputs a b\n.outputs c\n.graph\na+ p1\nc+ p2 p3\nb+ p4\n\
          a- p5\nb- p6\nc- p7 p8\np1 c+\np2 a-\np3 b-\np4 c+\np5 c-\np6 c-\np7 a+\np8 b+\n\
          .marking { p7 p8 }\n.end\n",
        MISSING,
        MISSING,
        b"HTTP/1.1 405 Method Not Allowed\r\nContent-Type: application/json\r\nContent-Length: \
          18\r\nAllow: GET\r\nConnection: close\r\n\r\n{\"error\":\"method\"}",
        b"HTTP/1.1 411 Length Required\r\nContent-Type: application/json\r\nContent-Length: \
          18\r\nConnection: close\r\n\r\n{\"error\":\"length\"}",
        b"HTTP/1.1 413 Payload Too Large\r\nContent-Type: application/json\r\nContent-Length: \
          17\r\nConnection: close\r\n\r\n{\"error\":\"large\"}",
        b"HTTP/1.1 200 OK\r\nContent-Type: application/json\r\nContent-Length: 19\r\n\
          Connection: close\r\n\r\n{\"removed\":\"celem\"}",
        MISSING,
        BAD,
        b"",
    ],
    left: 0,
}];

const FOUR: &[Came] = &[(PUT, 0), (PUT, 0), (LIST, 0), (LIST, 0)];

/// Runs that serve some of four links, and runs over the file of a database.
pub const FIRST_LINKS: &[Sitting] = &[
    Sitting {
        words: &["serve", "here", "3"],
        file: None,
        coming: FOUR,
        fails: (0, 0, 0),
        status: Status::Done,
        printed: b"served 3\n",
        replies: &[ADDED, STANDS, LISTED],
        left: 1,
    },
    Sitting {
        words: &["serve", "here", "1", "--database", "a.db"],
        file: Some("a.db"),
        coming: &[(LIST, 0)],
        fails: (0, 0, 0),
        status: Status::Done,
        printed: b"served 1\n",
        replies: &[OLD],
        left: 0,
    },
    Sitting {
        words: &["serve", "here", "1", "--database", "a.db"],
        file: Some("b.db"),
        coming: &[(LIST, 0)],
        fails: (0, 0, 0),
        status: Status::Done,
        printed: b"served 1\n",
        replies: &[NONE],
        left: 0,
    },
    // No link comes at another address, and nothing can be written to what stands for it.
    Sitting {
        words: &["serve", "there", "1"],
        file: None,
        coming: FOUR,
        fails: (0, 0, 0),
        status: Status::Done,
        printed: b"served 1\n",
        replies: &[b""],
        left: 0,
    },
];

// A run over four links that isn't done.
macro_rules! undone {
    ($words:expr, $fails:expr, $status:expr, $printed:expr, $replies:expr, $left:expr) => {
        Sitting {
            words: $words,
            file: None,
            coming: FOUR,
            fails: $fails,
            status: $status,
            printed: $printed,
            replies: $replies,
            left: $left,
        }
    };
}

const USAGE: &[u8] = b"usage: desij decompose SPEC [--workers N] [--partition FILE] [--steps]
       desij measure N [--workers N]
       desij serve ADDR COUNT [--database FILE]
";

/// Runs that end with a fault, or whose words aren't of the form.
pub const UNDONE: &[Sitting] = &[
    undone!(
        &["serve", "here", "3"],
        (1, 0, 0),
        Status::ServeFault,
        b"",
        &[],
        4
    ),
    undone!(
        &["serve", "here", "3"],
        (3, 0, 0),
        Status::ServeFault,
        b"",
        &[ADDED],
        3
    ),
    undone!(
        &["serve", "here", "3"],
        (0, 1, 0),
        Status::ServeFault,
        b"",
        &[],
        4
    ),
    undone!(
        &["serve", "here", "3"],
        (0, 0, 1),
        Status::PrintFault,
        b"",
        &[ADDED, STANDS, LISTED],
        1
    ),
    undone!(
        &["serve", "here", "0"],
        (0, 0, 0),
        Status::BadWords,
        USAGE,
        &[],
        4
    ),
    undone!(
        &["decompose", "here"],
        (0, 0, 0),
        Status::BadWords,
        USAGE,
        &[],
        4
    ),
];
