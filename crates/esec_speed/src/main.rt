//! Speed of the lists of bits, of the cache, of the map, of queries, of records and of the vault, run by hand:
//! `esec_speed bits`, `esec_speed cache`, `esec_speed map`, `esec_speed match`, `esec_speed records` and `esec_speed vault`.
//! `esec_speed query` makes a query from its input ready, so that somebody can see how much memory that takes.
#![tactic(auto)]

mod bits;
mod cache;
mod history;
mod jobs;
mod matching;
mod name;
mod query;
mod records;
mod vault;
mod versions;

use std::process::ExitCode;
use std::{env, io};

fn main(rt: HostRuntime) -> ExitCode {
    match measure(&rt) {
        Ok(true) => ExitCode::from(0),
        Ok(false) => ExitCode::from(2),
        Err(_) => ExitCode::from(1),
    }
}

/// Measures what the word behind the program's name asks for. Without such a word it tells the usage.
fn measure(rt: &HostRuntime) -> io::Result<bool> {
    for word in env::args(rt)?.skip(1) {
        match word.as_str() {
            "bits" => {
                bits::measure(rt)?;
                return Ok(true);
            }
            "cache" => {
                cache::measure(rt)?;
                return Ok(true);
            }
            "map" => {
                versions::measure(rt)?;
                return Ok(true);
            }
            "match" => {
                matching::measure(rt)?;
                return Ok(true);
            }
            "records" => {
                records::measure(rt)?;
                return Ok(true);
            }
            "vault" => {
                vault::measure(rt)?;
                return Ok(true);
            }
            "query" => {
                query::make_ready(rt)?;
                return Ok(true);
            }
            _ => {}
        }
    }
    println!(rt; "usage: esec_speed bits|cache|map|match|records|vault|query")?;
    Ok(false)
}
