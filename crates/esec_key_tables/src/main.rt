//! Runs tables of questions to the crates of API keys, of decisions and of records and their answers, which standard input
//! holds, and tells how many differ.
#![tactic(auto)]

mod answers;
mod asking;
mod bodies;
mod changes;
mod decisions;
mod dropping;
mod keys;
mod printing;
mod standing;
mod subjects;
mod texts;

use answers::KeyTables;
use esec_cells::compared;
use std::io;

fn main(rt: HostRuntime) -> io::Result<()> {
    let text = io::read_to_string(rt.alloc(), rt.stdin())?;
    let told = compared::<KeyTables>(rt.alloc(), text.as_str())?;
    print!(rt; "{told}")
}
