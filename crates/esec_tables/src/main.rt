//! Runs tables of questions to the leaf crates and their answers, which standard input holds, and tells how many differ.
#![tactic(auto)]

mod actions;
mod answers;
mod credentials;
mod mappings;
mod paths;
mod patterns;
mod queries;
mod roles;
mod security;
mod trees;
mod values;

use answers::Leaves;
use esec_cells::compared;
use std::io;

fn main(rt: HostRuntime) -> io::Result<()> {
    let text = io::read_to_string(rt.alloc(), rt.stdin())?;
    let told = compared::<Leaves>(rt.alloc(), text.as_str())?;
    print!(rt; "{told}")
}
