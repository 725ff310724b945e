//! Links and keepers that fail.

use crate::served::Served;
use crate::tests::rows::{Row, Turn};
use crate::tests::session::{LIST, NONE, PUT, STANDS};

/// A GET of all names with a body, whose head has 46 bytes.
const WITH_BODY: &[u8] = b"GET /projects HTTP/1.1\r\nContent-Length:  5\r\n\r\nabcde";

/// The reply that names the one project.
const LISTED: &[u8] = b"HTTP/1.1 200 OK\r\nContent-Type: application/json\r\nContent-Length: 22\r\n\
  Connection: close\r\n\r\n{\"projects\":[\"celem\"]}";

/// The reply that the keeper failed.
const KEEPER_FAILED: &[u8] =
    b"HTTP/1.1 503 Service Unavailable\r\nContent-Type: application/json\r\n\
  Content-Length: 18\r\nConnection: close\r\n\r\n{\"error\":\"keeper\"}";

/// The PUT comes in two reads, and its reply goes in one write. The first read of the last request
/// has its whole head, and its body isn't asked for.
pub const LINK_FAILS: &[Turn] = &[
    (PUT, 100, 1, Served::LinkFault, b""),
    (PUT, 100, 2, Served::LinkFault, b""),
    (LIST, 100, 0, Served::Replied(200), NONE),
    (PUT, 100, 3, Served::LinkFault, b""),
    (PUT, 100, 0, Served::Replied(200), STANDS),
    (WITH_BODY, 46, 3, Served::Replied(200), LISTED),
];

/// The keeper's first call is that of the GET.
pub const LIST_FAILS: &[Row] = &[(LIST, 503, KEEPER_FAILED), (LIST, 200, NONE)];

/// Its first two calls are those of the PUT.
pub const PUT_FAILS: &[Row] = &[(PUT, 503, KEEPER_FAILED), (LIST, 200, NONE)];
