//! The parameters of a path.
ghost use Rattle.std.specs.Prelude.{◌≡◌, [], ◌∷◌, IfOk};
ghost use Rattle.std.specs.Cow.{cow_str_bytes};
ghost use Rattle.es_route.specs.Stops.{Gives};
ghost use Rattle.es_route.specs.Targets.{decoded};
ghost use Rattle.es_route.specs.Paths.{path_parameters, decoded_one};

use crate::path::Path;
use crate::stop::Stop;
use es_base::{NoMemory, Str, Strs};
use es_reply::bad_path;
use percent_encoding::{DecodeError, percent_decode};
use std::alloc::Global;
use std::borrow::CowStr;

/// The parameters of a path as they are meant: percent-decoded (RFC 3986, section 2.1).
pub fn parameters_of(alloc: Global, path: &Path<'_>) -> Result<Strs, Stop>
    ensures { Gives result (decoded (path_parameters path.now)) }
{
    match path {
        Path::Bulk | Path::Search | Path::Authenticate | Path::Keys | Path::HasPrivileges => {
            Ok(Strs::empty(alloc))
        }
        Path::Key(text)
        | Path::Role(text)
        | Path::User(text)
        | Path::RoleCache(text)
        | Path::Index(text)
        | Path::IndexBulk(text)
        | Path::Mapping(text)
        | Path::IndexSearch(text) => one_parameter(alloc, text),
        Path::Create(index, id) | Path::Document(index, id) => two_parameters(alloc, index, id),
    }
}

#[tactic(auto, using(crate::proofs::Steps::one_decoded, crate::proofs::Steps::one_stops))]
fn one_parameter(alloc: Global, text: &str) -> Result<Strs, Stop>
    ensures { Gives result (decoded (text.now ∷ [])) }
{
    let parameter = decoded_text(alloc, text)?;
    let mut parameters = Strs::empty(alloc);
    parameters.push(parameter)?;
    Ok(parameters)
}

#[tactic(auto, using(crate::proofs::Steps::two_decoded, crate::proofs::Steps::first_stops, crate::proofs::Steps::second_stops))]
fn two_parameters(alloc: Global, first: &str, second: &str) -> Result<Strs, Stop>
    ensures { Gives result (decoded (first.now ∷ second.now ∷ [])) }
{
    let index = decoded_text(alloc, first)?;
    let id = decoded_text(alloc, second)?;
    let mut parameters = Strs::empty(alloc);
    parameters.push(index)?;
    parameters.push(id)?;
    Ok(parameters)
}

/// The text that a segment means.
fn decoded_text(alloc: Global, segment: &str) -> Result<Str, Stop>
    ensures { Gives result (decoded_one segment.now) }
{
    match percent_decode(segment.as_bytes()).decode_utf8(alloc) {
        Ok(text) => Ok(owned(alloc, text)?),
        Err(error) => match error {
            DecodeError::Utf8(_) => Err(Stop::Refused(bad_path(alloc)?)),
            DecodeError::OutOfMemory => Err(Stop::NoMemory),
        },
    }
}

/// A text of its own; it takes no memory where it is one.
fn owned(alloc: Global, text: CowStr<'_>) -> Result<Str, NoMemory>
    ensures { IfOk result (λ found. found ≡ cow_str_bytes text.entry) }
{
    Ok(Str::from_string(text.into_owned(alloc)?))
}
