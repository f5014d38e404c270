//! Rows that are schedules.
ghost use Rattle.std.specs.Prelude.{◌≤◌};

use crate::running::{Outcome, SECRET};
use es_base::NoMemory;
use es_drill::{Drilled, ScheduleFault, drill};
use es_edge::{MemSink, MemSource};
use es_vault::Limits;
use std::alloc::{AllocError, Global};

/// What comes of a schedule.
pub fn drilled(
    alloc: Global,
    limits: Limits,
    mut source: MemSource,
    mut sink: MemSink,
) -> Result<Outcome, NoMemory>
    requires journal { 1 ≤ limits.journal }
    requires most { limits.journal ≤ 200000 }
    requires roles { 1 ≤ limits.role_cache }
{
    let ended = drill(alloc, SECRET, limits, &mut source, &mut sink);
    Ok(Outcome {
        written: sink.taken,
        end: end_of(alloc, ended)?,
        receipts: String::new(alloc),
        read: source.place,
        hits: 0,
    })
}

/// How a drill ended, as a row says it.
fn end_of(alloc: Global, ended: Drilled) -> Result<String, AllocError> {
    let name = match ended {
        Drilled::Done => "Done",
        Drilled::BadSchedule { line, what } => {
            let fault = fault_of(what);
            return format!(in alloc; "BadSchedule {line} {fault}");
        }
        Drilled::ReadFault => "ReadFault",
        Drilled::WriteFault => "WriteFault",
        Drilled::Spent => "Spent",
        Drilled::NoMemory => "NoMemory",
    };
    String::from_str(alloc, name)
}

/// What is wrong with a line, as a row says it.
fn fault_of(what: ScheduleFault) -> &'static str {
    match what {
        ScheduleFault::BadLine => "bad",
        ScheduleFault::IdleActor => "idle",
        ScheduleFault::BusyActor => "busy",
    }
}
