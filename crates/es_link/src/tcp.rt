//! Links and listeners over TCP. They tell nothing of what comes or goes.
ghost use Rattle.std.specs.Prelude.{◌≡◌, ◌<◌, length, true, false, None, IfSome};
ghost use Rattle.es_link.specs.Links.{IsFresh};
ghost use Rattle.es_link.specs.Tcp.{stream_input, stream_output, tcp_listening};

use crate::{Accepted, Bound, Link, Listener};
use es_edge::{Got, Sink, Source, Took, got_of, took_of};
use std::io::{ErrorKind, Read, Write};
use std::net::{self, Net, OpenListener, OpenStream};
use std::time::Duration;

/// As many seconds a read and a write may wait. One that waits longer fails.
const PATIENCE: u64 = 60;

/// As many connections may go in a row before they are taken.
const GONE: u64 = 1000;

/// A connection of TCP.
#[derive(Drop)]
pub struct TcpLink<S: Read + Write + Drop> {
    stream: Option<S>,
    read_faults: u64,
    write_faults: u64,
    ends: u64,
}

impl<S: Read + Write + Drop> Source for TcpLink<S> {
    ghost use Rattle.std.specs.Prelude.{refl, is_some};
    ghost use Rattle.std.proofs.Common.{◌∙◌};
    ghost use Rattle.es_edge.specs.Moves.{Input, Reads};
    ghost use Rattle.es_link.specs.Tcp.{stream_input};

    ghost input = { λ link. stream_input link.stream link.read_faults link.ends };

    ghost read_leaves = { λ old new. (is_some new.stream ≡ is_some old.stream) × (new.write_faults ≡ old.write_faults) };

    ghost read_leaves_same = { λ _. (refl, refl) };

    ghost read_leaves_then = { λ _ _ _ first second. (second.0 ∙ first.0, second.1 ∙ first.1) };

    fn read(&mut self, buf: &mut [u8]) -> Got
        requires { 0 < length buf.old }
        ensures reads { Reads (stream_input self.old.stream self.old.read_faults self.old.ends) (stream_input self.new.stream self.new.read_faults self.new.ends) buf.new result }
        ensures leaves { (is_some self.new.stream ≡ is_some self.old.stream) × (self.new.write_faults ≡ self.old.write_faults) }
    {
        let got = match &mut self.stream {
            Some(stream) => got_of(stream.read(buf)),
            None => Got::Failed,
        };
        match got {
            Got::Bytes(_) => {}
            Got::End => self.ends = self.ends.saturating_add(1),
            Got::Failed => self.read_faults = self.read_faults.saturating_add(1),
        }
        got
    }
}

impl<S: Read + Write + Drop> Sink for TcpLink<S> {
    ghost use Rattle.std.specs.Prelude.{refl, is_some};
    ghost use Rattle.std.proofs.Common.{◌∙◌};
    ghost use Rattle.es_edge.specs.Moves.{Output, Writes};
    ghost use Rattle.es_link.specs.Tcp.{stream_output};

    ghost output = { λ link. stream_output link.stream link.write_faults };

    ghost write_leaves = { λ old new. (is_some new.stream ≡ is_some old.stream) × (new.read_faults ≡ old.read_faults) × (new.ends ≡ old.ends) };

    ghost write_leaves_same = { λ _. (refl, refl, refl) };

    ghost write_leaves_then = { λ _ _ _ first second. (second.0 ∙ first.0, second.1 ∙ first.1, second.2 ∙ first.2) };

    fn write(&mut self, bytes: &[u8]) -> Took
        requires { 0 < length bytes.now }
        ensures writes { Writes (stream_output self.old.stream self.old.write_faults) (stream_output self.new.stream self.new.write_faults) bytes.now result }
        ensures leaves { (is_some self.new.stream ≡ is_some self.old.stream) × (self.new.read_faults ≡ self.old.read_faults) × (self.new.ends ≡ self.old.ends) }
    {
        let took = match &mut self.stream {
            Some(stream) => took_of(stream.write(bytes)),
            None => Took::Failed,
        };
        match took {
            Took::Bytes(_) => {}
            Took::Failed => self.write_faults = self.write_faults.saturating_add(1),
        }
        took
    }
}

impl<S: Read + Write + Drop> Link for TcpLink<S> {
    ghost use Rattle.std.specs.Prelude.{refl, is_some};
    ghost use Rattle.es_edge.specs.Moves.{Input, Output};
    ghost use Rattle.es_edge.specs.Std.{silent_input, silent_output};
    ghost use Rattle.es_link.specs.Links.{closed_input, closed_output};
    ghost use Rattle.es_link.specs.Tcp.{stream_input, stream_output};

    /// Closes its socket.
    fn close(&mut self)
        ensures input { stream_input self.new.stream self.new.read_faults self.new.ends ≡ closed_input (stream_input self.old.stream self.old.read_faults self.old.ends) }
        ensures output { stream_output self.new.stream self.new.write_faults ≡ closed_output (stream_output self.old.stream self.old.write_faults) }
    {
        self.stream = None;
    }

    ghost both_open = { λ _. refl };

    ghost read_leaves_output = { λ _ _ keeps. λ i. record (silent_output (keeps.1 i)) { is_open = keeps.0 i } };

    ghost write_leaves_input = { λ _ _ keeps. λ i. record (silent_input (keeps.1 i) (keeps.2 i)) { is_open = keeps.0 i } };
}

/// A listener of TCP, over what lets it reach the network.
#[derive(Drop)]
pub struct TcpListener<'a, R: Net> {
    net: &'a R,
    pub(crate) socket: Option<R::Listener>,
    links: u64,
    faults: u64,
}

impl<'a, R: Net> TcpListener<'a, R> {
    /// A listener that isn't bound, without a fault so far.
    pub fn new(net: &'a R) -> TcpListener<'a, R>
        ensures { tcp_listening result.socket result.links result.faults 0 ≡ record { is_bound = false; address = None; links = 0; faults = 0; ends = 0 } }
    {
        TcpListener {
            net,
            socket: None,
            links: 0,
            faults: 0,
        }
    }
}

impl<'a, R: Net> Listener for TcpListener<'a, R> {
    ghost use Rattle.es_link.specs.Links.{IsFresh};
    ghost use Rattle.es_link.specs.Listens.{Listening, Binds, Accepts, IfLink};
    ghost use Rattle.es_link.specs.Tcp.{stream_input, stream_output, tcp_listening};

    type L = TcpLink<R::Stream>;

    ghost listening = { λ listener. tcp_listening listener.socket listener.links listener.faults 0 };

    ghost has_fresh = { λ _. Unit {0} };

    fn bind(&mut self, address: &str) -> Bound
        requires { (tcp_listening self.old.socket self.old.links self.old.faults 0).is_bound ≡ false }
        ensures binds { Binds (tcp_listening self.old.socket self.old.links self.old.faults 0) (tcp_listening self.new.socket self.new.links self.new.faults 0) address.now result }
        ensures fresh { Unit {0} → Unit {0} }
    {
        match net::TcpListener::bind(self.net, address) {
            Ok(socket) => {
                self.socket = Some(socket);
                Bound::Ok
            }
            Err(_) => {
                self.faults = self.faults.saturating_add(1);
                Bound::Failed
            }
        }
    }

    /// The next link, each read and write of which may wait a minute. Connections that went before they were taken, up to
    /// 1,000 in a row, are passed over.
    fn accept(&mut self) -> Accepted<TcpLink<R::Stream>>
        ensures accepts { Accepts (tcp_listening self.old.socket self.old.links self.old.faults 0) (tcp_listening self.new.socket self.new.links self.new.faults 0) result }
        ensures fresh { Unit {0} → Unit {0} }
        ensures link { Unit {0} → IfLink result (λ link. IsFresh (stream_input link.stream link.read_faults link.ends) (stream_output link.stream link.write_faults)) }
    {
        match taken::<R>(&self.socket) {
            Some(link) => {
                self.links = self.links.saturating_add(1);
                Accepted::Link(link)
            }
            None => {
                self.faults = self.faults.saturating_add(1);
                Accepted::Failed
            }
        }
    }
}

// The next connection of the socket, if it gives one.
fn taken<R: Net>(socket: &Option<R::Listener>) -> Option<TcpLink<R::Stream>>
    ensures { IfSome result (λ link. IsFresh (stream_input link.stream link.read_faults link.ends) (stream_output link.stream link.write_faults)) }
{
    let Some(socket) = socket else {
        return None;
    };
    for _ in 0..GONE {
        match socket.accept() {
            Ok((stream, _)) => return Some(link_of(stream)),
            Err(error) => {
                if !has_gone(error.kind()) {
                    return None;
                }
            }
        }
    }
    None
}

// Whether a connection went before it was taken.
fn has_gone(kind: ErrorKind) -> bool {
    matches!(
        kind,
        ErrorKind::ConnectionAborted | ErrorKind::ConnectionReset | ErrorKind::Interrupted
    )
}

// An open link of a stream, each read and write of which may wait a minute. A stream that takes no such setting is used
// without it.
fn link_of<S: Read + Write + OpenStream + Drop>(stream: S) -> TcpLink<S>
    ensures { IsFresh (stream_input result.stream result.read_faults result.ends) (stream_output result.stream result.write_faults) }
{
    let patience = Some(Duration::from_secs(PATIENCE));
    let _ = stream.set_nodelay(true);
    let _ = stream.set_read_timeout(patience);
    let _ = stream.set_write_timeout(patience);
    TcpLink {
        stream: Some(stream),
        read_faults: 0,
        write_faults: 0,
        ends: 0,
    }
}
