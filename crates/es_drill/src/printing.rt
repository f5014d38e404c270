//! The lines that a drill prints. Where memory is refused a part of a line may stand.
ghost use Rattle.std.specs.Prelude.{◌≡◌, ◌∷◌, [], ◌++◌, OnOk};
ghost use Rattle.es_drill.specs.Keeping.{IsActor};
ghost use Rattle.es_drill.specs.Output.{letter_of, note_text, note_line, reply_line, fault_text, fault_line, with_number, with_numbers};
ghost use Rattle.std.specs.Prelude.{decimal};

use crate::ScheduleFault;
use es_base::{NoMemory, Str};
use es_job::Note;
use es_reply::Reply;
use itoa::Buffer;

/// Prints the line of a step.
pub fn print_note(printed: &mut Str, actor: usize, note: Note) -> Result<(), NoMemory>
    requires { IsActor actor }
    ensures { OnOk result (printed.new ≡ printed.old ++ note_line actor note) }
{
    start_line(printed, actor)?;
    push_note(printed, note)?;
    printed.push_str("\n")
}

/// Prints the line of a reply.
pub fn print_reply(
    printed: &mut Str,
    actor: usize,
    place: u64,
    reply: &Reply,
) -> Result<(), NoMemory>
    requires { IsActor actor }
    ensures { OnOk result (printed.new ≡ printed.old ++ reply_line actor reply.now.status place reply.now.body) }
{
    start_line(printed, actor)?;
    push_two(printed, "reply", u64::from(reply.status()), place)?;
    printed.push_str(" ")?;
    printed.push_str(reply.body())?;
    printed.push_str("\n")
}

/// Prints the line of a fault.
pub fn print_fault(printed: &mut Str, number: u64, what: ScheduleFault) -> Result<(), NoMemory>
    ensures { OnOk result (printed.new ≡ printed.old ++ fault_line number what) }
{
    printed.push_str("line ")?;
    push_number(printed, number)?;
    printed.push_str(": ")?;
    printed.push_str(fault_text(what))?;
    printed.push_str("\n")
}

// An actor's letter and a space.
fn start_line(printed: &mut Str, actor: usize) -> Result<(), NoMemory>
    requires { IsActor actor }
    ensures { OnOk result (printed.new ≡ printed.old ++ letter_of actor ∷ 32 ∷ []) }
{
    printed.push(letter(actor))?;
    printed.push_str(" ")
}

// An actor's letter.
fn letter(actor: usize) -> char
    requires { IsActor actor }
    ensures { result ≡ letter_of actor }
{
    char::from(actor as u8 + 64)
}

// A number.
fn push_number(printed: &mut Str, number: u64) -> Result<(), NoMemory>
    ensures { OnOk result (printed.new ≡ printed.old ++ decimal number) }
{
    let mut buffer = Buffer::new();
    printed.push_str(buffer.format(number))
}

// A word and a number.
fn push_one(printed: &mut Str, word: &str, number: u64) -> Result<(), NoMemory>
    ensures { OnOk result (printed.new ≡ printed.old ++ with_number word.now number) }
{
    printed.push_str(word)?;
    printed.push_str(" ")?;
    push_number(printed, number)
}

// A word and two numbers.
fn push_two(printed: &mut Str, word: &str, first: u64, second: u64) -> Result<(), NoMemory>
    ensures { OnOk result (printed.new ≡ printed.old ++ with_numbers word.now first second) }
{
    push_one(printed, word, first)?;
    printed.push_str(" ")?;
    push_number(printed, second)
}

// The text of a note.
#[tactic(auto, unfolding(crate::specs::Output::note_text))]
fn push_note(printed: &mut Str, note: Note) -> Result<(), NoMemory>
    ensures { OnOk result (printed.new ≡ printed.old ++ note_text note) }
{
    match note {
        Note::Seen(place) => push_one(printed, "seen", place),
        Note::Hit(place, count) => push_two(printed, "hit", place, count),
        Note::Miss(place, count) => push_two(printed, "miss", place, count),
        Note::Unknown(place) => push_one(printed, "unknown", place),
        Note::Published => printed.push_str("published"),
        Note::Stale(began, stands) => push_two(printed, "stale", began, stands),
        Note::Changed(place) => push_one(printed, "changed", place),
        Note::Refused(place) => push_one(printed, "refused", place),
        Note::Full(place) => push_one(printed, "full", place),
    }
}

// What is wrong with a line.
fn fault_text(what: ScheduleFault) -> &'static str
    ensures { result.now ≡ fault_text what }
{
    match what {
        ScheduleFault::BadLine => "bad line",
        ScheduleFault::IdleActor => "idle actor",
        ScheduleFault::BusyActor => "busy actor",
    }
}
