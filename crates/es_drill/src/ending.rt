//! How a drill ends.

/// How a drill ended.
#[derive(Clone, Copy, Debug, PartialEq, Eq)]
pub enum Drilled {
    /// Each line was taken.
    Done,
    /// A line was refused.
    BadSchedule {
        /// Its number, counted from 1.
        line: u64,
        /// What is wrong with it.
        what: ScheduleFault,
    },
    /// The source failed.
    ReadFault,
    /// The sink failed.
    WriteFault,
    /// 1,000,000 lines were taken, and another byte follows.
    Spent,
    /// Memory was refused.
    NoMemory,
}

/// What is wrong with a line.
#[derive(Clone, Copy, Debug, PartialEq, Eq)]
pub enum ScheduleFault {
    /// It is too long, no UTF-8, or of no form.
    BadLine,
    /// Its actor has no call.
    IdleActor,
    /// Its actor has a call that hasn't ended.
    BusyActor,
}
