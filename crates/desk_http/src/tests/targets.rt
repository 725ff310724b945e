//! Requests whose bytes alone decide the reply.

use crate::tests::rows::Row;
use crate::tests::session::MISSING;

/// The reply that it is no request.
const BAD: &[u8] =
    b"HTTP/1.1 400 Bad Request\r\nContent-Type: application/json\r\nContent-Length: 19\r\n\
  Connection: close\r\n\r\n{\"error\":\"request\"}";

/// The reply that the path has the method GET alone.
const ONLY_GET: &[u8] =
    b"HTTP/1.1 405 Method Not Allowed\r\nContent-Type: application/json\r\nContent-Length: \
  18\r\nAllow: GET\r\nConnection: close\r\n\r\n{\"error\":\"method\"}";

/// The requests, over a keeper without projects.
pub const REFUSED: &[Row] = &[
    (b"", 400, BAD),
    (b"GET /projects HTTP/2.0\r\n\r\n", 400, BAD),
    (b"GET /projects\r\n\r\n", 400, BAD),
    (b"GET / HTTP/1.1\r\n\r\n", 404, MISSING),
    (b"GET /projects/ HTTP/1.1\r\n\r\n", 404, MISSING),
    (b"GET /projects?x HTTP/1.1\r\n\r\n", 404, MISSING),
    (b"GET /project HTTP/1.1\r\n\r\n", 404, MISSING),
    (b"GET /projects/a%62 HTTP/1.1\r\n\r\n", 404, MISSING),
    (b"GET /projects/a.b HTTP/1.1\r\n\r\n", 404, MISSING),
    (b"GET /projects/a/parts HTTP/1.1\r\n\r\n", 404, MISSING),
    (b"GET /projects/a/parts/ HTTP/1.1\r\n\r\n", 404, MISSING),
    (b"GET /projects/a/parts/01 HTTP/1.1\r\n\r\n", 404, MISSING),
    (b"GET /projects/a/parts/1/ HTTP/1.1\r\n\r\n", 404, MISSING),
    (
        b"GET /projects/a/parts/1234567890 HTTP/1.1\r\n\r\n",
        404,
        MISSING,
    ),
    (
        b"GET /projects/nnnnnnnnnnnnnnnnnnnnnnnnnnnnnnnnnnnnnnnnnnnnnnnnnnnnnnnnnnnnnnnnn \
          HTTP/1.1\r\n\r\n",
        404,
        MISSING,
    ),
    (b"POST /projects HTTP/1.1\r\n\r\n", 405, ONLY_GET),
    (b"get /projects HTTP/1.1\r\n\r\n", 405, ONLY_GET),
    (b"POST /projects/a/parts/0 HTTP/1.1\r\n\r\n", 405, ONLY_GET),
    (
        b"POST /projects/a HTTP/1.1\r\n\r\n",
        405,
        b"HTTP/1.1 405 Method Not Allowed\r\nContent-Type: application/json\r\nContent-Length: \
          18\r\nAllow: GET, PUT, DELETE\r\nConnection: close\r\n\r\n{\"error\":\"method\"}",
    ),
    (
        b"PUT /projects/a HTTP/1.1\r\nTransfer-Encoding: chunked\r\nContent-Length: 1\r\n\r\nx",
        400,
        BAD,
    ),
    (
        b"PUT /projects/a HTTP/1.1\r\nContent-Length: 1\r\ncontent-length: 1\r\n\r\nx",
        400,
        BAD,
    ),
    (
        b"PUT /projects/a HTTP/1.1\r\nContent-Length: 1234567890\r\n\r\n",
        400,
        BAD,
    ),
    (
        b"PUT /projects/a HTTP/1.1\r\nContent-Length: 1, 1\r\n\r\nx",
        400,
        BAD,
    ),
    (
        b"PUT /projects/a HTTP/1.1\r\n\r\n",
        411,
        b"HTTP/1.1 411 Length Required\r\nContent-Type: application/json\r\nContent-Length: 18\r\n\
          Connection: close\r\n\r\n{\"error\":\"length\"}",
    ),
    (
        b"PUT /projects/a HTTP/1.1\r\nContent-Length: 1048577\r\n\r\n",
        413,
        b"HTTP/1.1 413 Payload Too Large\r\nContent-Type: application/json\r\nContent-Length: \
          17\r\nConnection: close\r\n\r\n{\"error\":\"large\"}",
    ),
    (
        b"PUT /projects/a HTTP/1.1\r\nContent-Length: 4\r\n\r\nabc",
        400,
        BAD,
    ),
];
