//! A proxy that passes frames on between a client and a server, with a fixed budget of memory for each connection.

ghost use Rattle.std.specs.Prelude.{◌≡◌, ◌≢◌, ◌+◌, ◌*◌, ◌<◌, ◌≤◌, Err, IfOk};
ghost use Rattle.amqp_types.specs.Levels.{plain};
ghost use Rattle.amqp_stream.specs.Changes.{◌⇒◌};
ghost use Rattle.amqp_stream.specs.Calls.{call_of};
ghost use Rattle.amqp_stream.specs.Canonicalizing.{Canonicalizes};

use amqp_stream::{Codec, Sink, Source, StreamError};
use amqp_types::{ChunkSize, NoMemory, Profile};
use std::alloc::Global;

/// The greatest limit on payloads with which two codecs stay within a budget of bytes. Each holds ten bytes for each
/// byte of the largest frame: one in the reader, one in the output buffer, and eight of scratch.
pub fn limit_within(budget: u32) -> ChunkSize
    requires { 160 ≤ budget }
    ensures within { 20 * (result + 8) ≤ budget }
    ensures greatest { budget < 20 * (result + 9) }
{
    budget / 20 - 8
}

/// A connection, with a codec for each direction. All its memory is taken when it is opened.
#[derive(Drop)]
pub struct Connection {
    /// The codec of what the client sends.
    pub to_server: Codec,

    /// The codec of what the server sends.
    pub to_client: Codec,
}

impl Connection {
    /// A connection that stays within a budget of bytes.
    pub fn open(alloc: Global, budget: u32) -> Result<Connection, NoMemory>
        requires { 160 ≤ budget }
        ensures to_server { IfOk result (λ connection. 20 * (connection.to_server + 8) ≤ budget) }
        ensures to_client { IfOk result
            (λ connection. connection.to_client ≡ connection.to_server) }
    {
        let limit = limit_within(budget);
        let to_server = Codec::open(alloc, limit)?;
        let to_client = Codec::open(alloc, limit)?;
        Ok(Connection {
            to_server,
            to_client,
        })
    }

    /// Passes on what the client sends, in canonical bytes, to its end or an error.
    pub fn from_client<S: Source, K: Sink>(
        &mut self,
        client: &mut S,
        server: &mut K,
        budget: u64,
    ) -> Result<(), StreamError>
        ensures limits { self.new ≡ self.old }
        ensures stream { Canonicalizes plain (call_of self.old.to_server budget
            (S.supply client.old ⇒ S.supply client.new)
            (K.store server.old ⇒ K.store server.new)) result }
        ensures memory { result ≢ Err StreamError.NoMemory }
    {
        self.to_server
            .rewrite(Profile::Plain, client, server, budget)
    }

    /// Passes on what the server sends, in canonical bytes, to its end or an error.
    pub fn from_server<S: Source, K: Sink>(
        &mut self,
        server: &mut S,
        client: &mut K,
        budget: u64,
    ) -> Result<(), StreamError>
        ensures limits { self.new ≡ self.old }
        ensures stream { Canonicalizes plain (call_of self.old.to_client budget
            (S.supply server.old ⇒ S.supply server.new)
            (K.store client.old ⇒ K.store client.new)) result }
        ensures memory { result ≢ Err StreamError.NoMemory }
    {
        self.to_client
            .rewrite(Profile::Plain, server, client, budget)
    }
}
