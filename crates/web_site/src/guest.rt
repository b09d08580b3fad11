//! A connection before it is a link.

ghost use Rattle.std.specs.Prelude.{◌≡◌, IfOk, OnErr};
ghost use Rattle.http_server.specs.Connection.{config_of, history};
ghost use Rattle.http_server.specs.History.{after_sent};

use crate::site::Site;
use http_server::{Config, Connection, State};
use http1::Limits;
use std::alloc::Global;
use std::hash::RandomState;
use std::io;
use std::io::{Read, Write};
use std::marker::Model;
use std::sync::Arc;

/// The head of a request has at most this many bytes: 8 KiB.
pub const MOST_HEAD: usize = 8_192;

/// A connection that asks a site for files, and at last to be let in as a link. The stream stays with the caller.
#[derive(Drop)]
pub struct Guest {
    site: Arc<Site, Global>,
    connection: Connection,
}

impl Model for Guest {
    ghost use Rattle.std.specs.Arc.{arc_value};
    ghost use Rattle.http_server.specs.Connection.{config_of, history};
    ghost use Rattle.web_site.specs.Guests.{Asking, IsTold};

    ghost Value = { Asking };

    ghost view = { λ g. record {
      site = arc_value g.site;
      config = config_of g.connection;
      history = history g.connection;
    } };

    ghost invariant = { λ g. ∥ IsTold (arc_value g.site) (history g.connection).calls ∥₁ };
}

impl Guest {
    ghost use Rattle.std.specs.Prelude.{◌≡◌, ◌↔◌, ◌<◌, IfOk, OnErr, IsTrue, length};
    ghost use Rattle.std.specs.Arc.{arc_value};
    ghost use Rattle.http_server.specs.History.{WantsRead, after_sent, new_history, IsDone, IsQuiet};
    ghost use Rattle.web_site.specs.Guests.{IsLetIn};

    /// A guest that has asked nothing yet. The peer chooses the names of fields, so the map of fields takes secret
    /// keys.
    pub fn new(alloc: Global, keys: RandomState, site: Arc<Site, Global>) -> Guest
        ensures site { result.site ≡ arc_value site }
        ensures history { result.history ≡ new_history }
        ensures head { result.config.limits.max_head_len ≡ MOST_HEAD }
        ensures body { result.config.max_body_len ≡ 0 }
    {
        let config = Config {
            limits: Limits {
                max_head_len: MOST_HEAD,
                max_extensions_len: 0,
                max_trailers_len: 2,
            },
            max_body_len: 0,
            max_pending: 65_536,
            read_size: 2_048,
        };
        Guest {
            site,
            connection: Connection::new(alloc, keys, config),
        }
    }

    /// Reads once, where more may come, and answers how many bytes were read: none at the end of the stream.
    pub fn read_from<R: Read>(&mut self, reader: &mut R) -> io::Result<usize>
        ensures site { self.new.site ≡ self.old.site }
        ensures config { self.new.config ≡ self.old.config }
    {
        read_once(&mut self.connection, reader)
    }

    /// Answers the requests that have come.
    pub fn advance(&mut self)
        ensures site { self.new.site ≡ self.old.site }
        ensures config { self.new.config ≡ self.old.config }
        ensures quiet { IsQuiet self.old.history self.new.history }
    {
        let mut site = &*self.site;
        self.connection.advance(&mut site);
    }

    /// Writes once, from what is still to be told, and answers how many bytes went out.
    pub fn write_to<W: Write>(&mut self, writer: &mut W) -> io::Result<usize>
        ensures site { self.new.site ≡ self.old.site }
        ensures config { self.new.config ≡ self.old.config }
        ensures ok { IfOk result (λ n. self.new.history ≡ after_sent self.old.history n) }
        ensures err { OnErr result (self.new.history ≡ self.old.history) }
    {
        write_once(&mut self.connection, writer)
    }

    /// Whether more may come.
    pub fn wants_read(&self) -> bool
        ensures { IsTrue result ↔ WantsRead self.now.config self.now.history }
    {
        self.connection.wants_read()
    }

    /// Whether something is still to be told.
    pub fn wants_write(&self) -> bool
        ensures { IsTrue result ↔ (0 < length self.now.history.pending) }
    {
        self.connection.wants_write()
    }

    /// Whether nothing more is asked or told: the guest is let in, or its connection is to be closed.
    pub fn is_done(&self) -> bool
        ensures { IsTrue result ↔ IsDone self.now.history }
    {
        self.connection.is_done()
    }

    /// Whether the guest, once it is done, is let in. The caller then makes a link of the stream. A guest that sent
    /// anything more before it was told so isn't let in.
    pub fn is_let_in(self) -> bool
        ensures { IsTrue result → ∥ IsLetIn self ∥₁ }
    {
        let Guest {
            site: _,
            connection,
        } = self;
        if connection.wants_write() {
            return false;
        }
        let State::Upgraded = connection.state() else {
            return false;
        };
        let (unread, _) = connection.into_buffers();
        if !unread.is_empty() {
            return false;
        }
        true
    }
}

/// Reads once. What was asked stays the same.
fn read_once<R: Read>(connection: &mut Connection, reader: &mut R) -> io::Result<usize>
    ensures calls { (history connection.new).calls ≡ (history connection.old).calls }
    ensures config { config_of connection.new ≡ config_of connection.old }
{
    match connection.read_from(reader) {
        Ok(count) => Ok(count),
        Err(error) => Err(error),
    }
}

/// Writes once. What was asked stays the same.
fn write_once<W: Write>(connection: &mut Connection, writer: &mut W) -> io::Result<usize>
    ensures calls { (history connection.new).calls ≡ (history connection.old).calls }
    ensures config { config_of connection.new ≡ config_of connection.old }
    ensures ok { IfOk result (λ n. history connection.new ≡ after_sent (history connection.old) n) }
    ensures err { OnErr result (history connection.new ≡ history connection.old) }
{
    match connection.write_to(writer) {
        Ok(count) => Ok(count),
        Err(error) => Err(error),
    }
}
