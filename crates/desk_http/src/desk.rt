//! The desk: it reads a request, answers it over its keeper, and writes the reply.

ghost use Rattle.std.specs.Prelude.{◌≡◌, ◌≤◌, IfOk};
ghost use Rattle.desk_http.specs.Serving.{Serves, StaysSure, seen_connection};

use crate::answering::answer;
use crate::asking::ask;
use crate::replies::failure;
use crate::reply::Reply;
use crate::routes::{Kind, routes};
use crate::served::{ReadError, Served};
use crate::writing::send;
use http::StatusCode;
use httparse::spans::EMPTY_HEADER_SPAN;
use io_shelf::Link;
use job_keeper::{KeepError, Keeper};
use matchit::Router;
use std::alloc::Global;
use std::marker::Model;
use std::thread::Threads;
use stg_net::NoMemory;

/// The most bytes that a head may have.
const MOST_HEAD: usize = 8_192;

/// The most fields that a head may have.
const MOST_FIELDS: usize = 64;

/// A keeper, and so many workers that make the parts of a project. The buffer for the head of a
/// request, and the replies that tell want of memory and a fault of the keeper, are made with it.
#[derive(Drop)]
pub struct Desk<K> {
    alloc: Global,
    router: Router<Kind>,
    buffer: Vec<u8>,
    no_memory: Reply,
    keeper_failed: Reply,
    keeper: K,
    workers: u32,
}

impl<K> Model for Desk<K> {
    ghost use Rattle.std.specs.Prelude.{◌≡◌, ◌≤◌, ℕ, length};
    ghost use Rattle.std.specs.Coded.{coded×, coded_ℕ};
    ghost use Rattle.desk_http.specs.Answering.{keeper_failure, memory_failure};
    ghost use Rattle.desk_http.specs.Requests.{most_head};
    ghost use Rattle.desk_http.specs.Routes.{IsRoutes};

    ghost Value = { K × ℕ };

    ghost coded = { coded× K.code coded_ℕ };

    ghost view = { λ d. (d.keeper, d.workers) };

    ghost invariant = { λ d.
        IsRoutes d.router
        × (length d.buffer.items ≡ most_head)
        × (d.no_memory ≡ memory_failure)
        × (d.keeper_failed ≡ keeper_failure)
        × (1 ≤ d.workers)
        × (d.workers ≤ 64) };
}

impl<K: Drop> Desk<K> {
    ghost use Rattle.std.specs.Borrow.{Lends, sem};
    ghost use Rattle.desk_http.specs.contracts.desk.Desk.{the_row};

    /// A desk over a keeper, with 1 to 64 workers. Where memory ran out the keeper is gone.
    pub fn new(alloc: Global, keeper: K, workers: u32) -> Result<Desk<K>, NoMemory>
        requires workers { (1 ≤ workers) × (workers ≤ 64) }
        ensures value { IfOk result (λ d. d ≡ (keeper, workers)) }
    {
        let Ok(router) = routes(alloc) else {
            return Err(NoMemory);
        };
        let mut buffer = Vec::new(alloc);
        buffer.resize(MOST_HEAD, 0)?;
        let no_memory = failure(alloc, StatusCode::INSUFFICIENT_STORAGE, "memory")?;
        let keeper_failed = failure(alloc, StatusCode::SERVICE_UNAVAILABLE, "keeper")?;
        Ok(Desk {
            alloc,
            router,
            buffer,
            no_memory,
            keeper_failed,
            keeper,
            workers,
        })
    }

    /// Lends the keeper. When the borrow ends the desk has it as the caller left it.
    pub fn keeper(&mut self) -> &mut K
        ensures* lends { sem 𝓛
            (Lends (the_row K.row) K.row self.entry result (λ keeper. (keeper, self.old.1))) }
        ensures value { result.now ≡ self.old.0 }
    {
        &mut self.keeper
    }
}

/// Reads one request from a link, answers it and writes the reply.
///
/// The reply is the machine's to the bytes of the link and the projects of the keeper, and so are
/// the projects after it; or memory ran out, or the keeper failed, and the projects are as before.
/// It is made whole before the keeper is changed. `LinkFault` comes only where the link's count of
/// faults rose: in reading, when the projects are as before, or in writing, when a change that was
/// made stays. At most 8,192 bytes are read of a head, and of a body as many as its length says, at
/// most 1,048,576; a body is read for a PUT alone.
pub fn serve_one<R: Threads + Sync, K: Keeper, L: Link>(
    rt: &R,
    desk: &mut Desk<K>,
    link: &mut L,
) -> Served
    ensures serves { Serves (seen_connection (K.seen desk.old.0) (L.seen link.old))
        (seen_connection (K.seen desk.new.0) (L.seen link.new)) result }
    ensures sure { StaysSure (K.seen desk.old.0) (K.seen desk.new.0) }
    ensures later { (L.seen link.old).faults ≤ (L.seen link.new).faults }
    ensures workers { desk.new.1 ≡ desk.old.1 }
{
    let mut headers = [EMPTY_HEADER_SPAN; MOST_FIELDS];
    let buffer = desk.buffer.as_mut_slice();
    let asked = match ask(
        desk.alloc,
        &desk.router,
        buffer,
        headers.as_mut_slice(),
        link,
    ) {
        Ok(asked) => asked,
        Err(ReadError::Failed) => return Served::LinkFault,
        Err(ReadError::NoMemory) => return send(link, &desk.no_memory),
    };
    match answer(rt, desk.alloc, &mut desk.keeper, desk.workers, asked) {
        Ok(reply) => send(link, &reply),
        Err(KeepError::Failed) => send(link, &desk.keeper_failed),
        Err(KeepError::NoMemory) => send(link, &desk.no_memory),
    }
}
