//! Answers one machine that asks.

ghost use Rattle.std.specs.Prelude.{◌≡◌, OnOk};

use crate::hasty::Hasty;
use crate::watched::Watched;
use http_server::{Config, Connection, serve};
use http1::Limits;
use std::alloc::Global;
use std::hash::RandomState;
use std::io;
use std::io::{Read, Write};
use std::time::{Clock, Instant};

/// The head of a request has at most this many bytes: 4 KiB.
pub const MOST_HEAD: usize = 4_096;

/// A connection on which nothing was asked. The peer chooses the names of fields, so their map takes secret keys. A
/// request has no body.
fn connection_of(alloc: Global, keys: RandomState) -> Connection {
    let config = Config {
        limits: Limits {
            max_head_len: MOST_HEAD,
            max_extensions_len: 0,
            max_trailers_len: 2,
        },
        max_body_len: 0,
        max_pending: 65_536,
        read_size: 2_048,
    };
    Connection::new(alloc, keys, config)
}

/// Answers a machine that has connected, with the run as it stood when the machine connected. The two streams, one to
/// read from and one to write to, are those of its connection. It fails where the machine isn't done by the moment
/// `until`, and where a read or a write fails.
pub fn answer_one<R: Clock, I: Read + Drop, O: Write + Drop>(
    rt: &R,
    alloc: Global,
    keys: RandomState,
    mut watched: &Watched,
    (reader, writer): (I, O),
    until: Instant,
) -> io::Result<()> {
    let mut connection = connection_of(alloc, keys);
    let mut reader = Hasty::new(rt, reader, until);
    let mut writer = Hasty::new(rt, writer, until);
    serve(&mut connection, &mut watched, &mut reader, &mut writer)
}
