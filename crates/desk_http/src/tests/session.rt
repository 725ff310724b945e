//! A session: a project is added, told and removed.

use crate::tests::rows::Row;

/// A PUT of a C-element.
pub const PUT: &[u8] =
    b"PUT /projects/celem HTTP/1.1\r\nContent-Length: 115\r\n\r\n.model c\n.inputs a b\n\
  .outputs c\n.graph\na+ c+\nb+ c+\nc+ a- b-\na- c-\nb- c-\nc- a+ b+\n.marking { \
  <c-,a+> <c-,b+> }\n.end\n";

/// A GET of all names.
pub const LIST: &[u8] = b"GET /projects HTTP/1.1\r\n\r\n";

/// The reply that there is no project.
pub const NONE: &[u8] =
    b"HTTP/1.1 200 OK\r\nContent-Type: application/json\r\nContent-Length: 15\r\n\
  Connection: close\r\n\r\n{\"projects\":[]}";

/// The reply that a project of one part stands.
pub const STANDS: &[u8] =
    b"HTTP/1.1 200 OK\r\nContent-Type: application/json\r\nContent-Length: 26\r\n\
  Connection: close\r\n\r\n{\"name\":\"celem\",\"parts\":1}";

/// The reply that nothing is there.
pub const MISSING: &[u8] =
    b"HTTP/1.1 404 Not Found\r\nContent-Type: application/json\r\nContent-Length: 19\r\n\
  Connection: close\r\n\r\n{\"error\":\"missing\"}";

/// The requests of the session, in order.
pub const SESSION: &[Row] = &[
    (
        PUT,
        201,
        b"HTTP/1.1 201 Created\r\nContent-Type: application/json\r\nContent-Length: 26\r\n\
          Connection: close\r\n\r\n{\"name\":\"celem\",\"parts\":1}",
    ),
    (PUT, 200, STANDS),
    (
        b"PUT /projects/celem HTTP/1.1\r\nContent-Length: 32\r\n\r\n.inputs a\n.graph\np a+ \
          a+/1\n.end\n",
        409,
        b"HTTP/1.1 409 Conflict\r\nContent-Type: application/json\r\nContent-Length: 17\r\n\
          Connection: close\r\n\r\n{\"error\":\"taken\"}",
    ),
    (
        b"PUT /projects/bad HTTP/1.1\r\nContent-Length: 32\r\n\r\n.inputs a\n.graph\np a+ a+/1\n\
          .end\n",
        422,
        b"HTTP/1.1 422 Unprocessable Entity\r\nContent-Type: application/json\r\n\
          Content-Length: 60\r\nConnection: close\r\n\r\n{\"error\":\"Clash\",\"line\":0,\"\
          place\":\"p\",\"t1\":\"a+\",\"t2\":\"a+/1\"}",
    ),
    (
        b"PUT /projects/bad HTTP/1.1\r\nContent-Length: 61\r\n\r\n.inputs a\n.outputs x\n\
          .dummy e\n.graph\na+ x+\n.marking { }\n.end\n",
        422,
        b"HTTP/1.1 422 Unprocessable Entity\r\nContent-Type: application/json\r\n\
          Content-Length: 29\r\nConnection: close\r\n\r\n{\"error\":\"HasDummy\",\"line\":3}",
    ),
    (
        LIST,
        200,
        b"HTTP/1.1 200 OK\r\nContent-Type: application/json\r\nContent-Length: 22\r\n\
          Connection: close\r\n\r\n{\"projects\":[\"celem\"]}",
    ),
    (b"GET /projects/celem HTTP/1.1\r\n\r\n", 200, STANDS),
    (
        b"GET /projects/celem/parts/1 HTTP/1.1\r\n\r\n",
        200,
        b"HTTP/1.1 200 OK\r\nContent-Type: text/plain\r\nContent-Length: 157\r\nConnection: \
          close\r\n\r\n.model part1\n.inputs a b\n.outputs c\n.graph\na+ p1\nc+ p2 p3\nb+ p4\n\
          a- p5\nb- p6\nc- p7 p8\np1 c+\np2 a-\np3 b-\np4 c+\np5 c-\np6 c-\np7 a+\np8 b+\n\
          .marking { p7 p8 }\n.end\n",
    ),
    (
        b"GET /projects/celem/parts/0 HTTP/1.1\r\n\r\n",
        404,
        MISSING,
    ),
    (
        b"GET /projects/celem/parts/2 HTTP/1.1\r\n\r\n",
        404,
        MISSING,
    ),
    (b"GET /projects/bad HTTP/1.1\r\n\r\n", 404, MISSING),
    (
        b"DELETE /projects/celem HTTP/1.1\r\n\r\n",
        200,
        b"HTTP/1.1 200 OK\r\nContent-Type: application/json\r\nContent-Length: 19\r\n\
          Connection: close\r\n\r\n{\"removed\":\"celem\"}",
    ),
    (b"DELETE /projects/celem HTTP/1.1\r\n\r\n", 404, MISSING),
    (LIST, 200, NONE),
];
