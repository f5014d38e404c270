//! The command line's words.
ghost use Rattle.std.specs.Prelude.{◌≡◌, true, map, option_map, string_bytes, None, Some, drop};
ghost use Rattle.std.specs.Process.{exit_status};
ghost use Rattle.es_edge.specs.declared.sending.Sent.{Sent};
ghost use Rattle.es_edge.specs.Sends.{Sends};
ghost use Rattle.esec_node.specs.Options.{options_from, no_options};
ghost use Rattle.esec_node.specs.Command.{EndsAs, HasRun, HasTaken, running_as, running_of, asked_as, asked, usage_line, usage_status, status_of, drill_status};

use crate::given::{Asked, Running};
use crate::options::{limits_of, options_in};
use es_drill::{Drilled, drill};
use es_drive::{Ran, run_script};
use es_edge::{Chance, Clock, Sent, Sink, Source, put};
use es_wire::LinkEnd;
use std::alloc::Global;
use std::process::ExitCode;

/// What the program did.
#[derive(Drop)]
pub struct Ended {
    /// 0 done, 2 usage, 3 read fault, 4 write fault, 5 truncated, 6 refused framing, 7 memory, 8 spent, 10 bad schedule.
    pub status: u8,
    /// How the run ended, where the command `run` was run.
    pub ran: Option<Ran>,
}

/// The words behind the program's name, of all words of the command line.
pub fn words_of(all: Vec<String>) -> Vec<String>
    ensures { result.items ≡ drop 1 all.items }
{
    let mut words = all;
    if !words.is_empty() {
        drop(words.remove(0));
    }
    words
}

/// The status with which the process ends.
pub fn exit_of(ended: &Ended) -> ExitCode
    ensures { exit_status result ≡ ended.now.status }
{
    ExitCode::from(ended.status)
}

/// Does all that the program does for these words, which have no program name.
///
/// `run --admin SECRET` answers the requests of the source on a node of its own. `drill --admin SECRET` takes the lines of the
/// source, a schedule of the steps of up to 26 actors on a node of its own, and prints what each step notes; it reads no clock
/// and draws nothing. SECRET is 1 to 128 characters from `!` to `~`.
///
/// More options of both are `--journal N` (entries that the journal may have, 1 to 200,000; 100,000 without it),
/// `--role-cache N` (composed roles that are cached, 1 to 512; 512 without it), and `--block N` (1 to 1,024) and
/// `--bit-cache N` (1 to 4,096), which have no effect yet. Options come in any order, each at most once. Any other words write
/// the usage line, with status 2.
pub fn esec<S: Source, K: Sink, C: Clock, H: Chance>(
    alloc: Global,
    words: &[String],
    source: &mut S,
    sink: &mut K,
    clock: &C,
    chance: &mut H,
) -> Ended
    requires source_is_open { (S.input source.old).is_open ≡ true }
    requires sink_is_open { (K.output sink.old).is_open ≡ true }
    ensures { EndsAs (asked (map string_bytes words.now)) (C.moment clock.now)
        (S.input source.old) (S.input source.new) (K.output sink.old) (K.output sink.new) (H.lots chance.old) (H.lots chance.new) result }
{
    match asked_in(words) {
        Some(Asked::Run(running)) => run(alloc, running, source, sink, clock, chance),
        Some(Asked::Drill(running)) => take_schedule(alloc, running, source, sink),
        None => usage(sink),
    }
}

/// What the words ask for: a command, and what its node is given.
fn asked_in(words: &[String]) -> Option<Asked<'_>>
    ensures { option_map asked_as result ≡ asked (map string_bytes words.now) }
{
    let [command, options @ ..] = words else {
        return None;
    };
    match command.as_str() {
        "run" => Some(Asked::Run(running_in(options)?)),
        "drill" => Some(Asked::Drill(running_in(options)?)),
        _ => None,
    }
}

/// What the words `--admin SECRET` and more options give a node.
fn running_in(words: &[String]) -> Option<Running<'_>>
    ensures { option_map running_as result ≡ running_of (options_from (Some no_options) (map string_bytes words.now)) }
{
    let options = options_in(words)?;
    let secret = options.admin?;
    Some(Running {
        secret,
        limits: limits_of(&options),
    })
}

/// Answers the requests of the source on a node of its own.
fn run<S: Source, K: Sink, C: Clock, H: Chance>(
    alloc: Global,
    running: Running<'_>,
    source: &mut S,
    sink: &mut K,
    clock: &C,
    chance: &mut H,
) -> Ended
    requires source_is_open { (S.input source.old).is_open ≡ true }
    requires sink_is_open { (K.output sink.old).is_open ≡ true }
    ensures { HasRun (running_as running.entry) (C.moment clock.now)
        (S.input source.old) (S.input source.new) (K.output sink.old) (K.output sink.new) (H.lots chance.old) (H.lots chance.new) result }
{
    let ran = run_script(
        alloc,
        running.secret,
        running.limits,
        source,
        sink,
        clock,
        chance,
    );
    Ended {
        status: status(ran.ended),
        ran: Some(ran),
    }
}

/// Takes the lines of a schedule on a node of its own.
fn take_schedule<S: Source, K: Sink>(
    alloc: Global,
    running: Running<'_>,
    source: &mut S,
    sink: &mut K,
) -> Ended
    requires source_is_open { (S.input source.old).is_open ≡ true }
    requires sink_is_open { (K.output sink.old).is_open ≡ true }
    ensures { HasTaken (running_as running.entry) (S.input source.old) (S.input source.new) (K.output sink.old) (K.output sink.new) result }
{
    let drilled = drill(alloc, running.secret, running.limits, source, sink);
    Ended {
        status: drill_status(drilled),
        ran: None,
    }
}

/// Writes the usage line.
fn usage<K: Sink>(sink: &mut K) -> Ended
    requires { (K.output sink.old).is_open ≡ true }
    ensures { (sent : Sent) × Sends (K.output sink.old) (K.output sink.new) usage_line sent × (result.status ≡ usage_status sent) × (result.ran ≡ None) }
{
    let status = match put(sink, b"usage: esec run|drill|load|serve --admin SECRET\n") {
        Sent::Ok => 2,
        Sent::WriteFault => 4,
    };
    Ended { status, ran: None }
}

/// The exit status of a connection's end.
fn status(ended: LinkEnd) -> u8
    ensures { result ≡ status_of ended }
{
    match ended {
        LinkEnd::Done => 0,
        LinkEnd::ReadFault => 3,
        LinkEnd::WriteFault => 4,
        LinkEnd::Truncated => 5,
        LinkEnd::BadHead => 6,
        LinkEnd::NoMemory => 7,
        LinkEnd::Spent => 8,
    }
}

/// The exit status of a drill's end.
fn drill_status(drilled: Drilled) -> u8
    ensures { result ≡ drill_status drilled }
{
    match drilled {
        Drilled::Done => 0,
        Drilled::BadSchedule { .. } => 10,
        Drilled::ReadFault => 3,
        Drilled::WriteFault => 4,
        Drilled::Spent => 8,
        Drilled::NoMemory => 7,
    }
}
