//! What is left of a path inside a tree.
ghost use Rattle.std.specs.Prelude.{◌≡◌, Some, option_map};
ghost use Rattle.es_path.specs.Reached.{left_of, behind, behind_dot};

/// What is left of a path where a tree stands.
#[derive(Clone, Copy)]
pub struct Left<'a> {
    /// Whether a scalar here stands at the path.
    pub is_end: bool,
    /// The names of members that lead on from here, joined by dots.
    pub names: Option<&'a [u8]>,
}

/// What is left of the names of a path at a member, if they lead through it: they are its name, or begin with its name and
/// a dot. Lengths are compared before bytes.
pub fn left_behind<'a>(names: &'a [u8], name: &[u8]) -> Option<Left<'a>>
    ensures { option_map left_of result ≡ behind name.now names.now }
{
    let (front, rest) = names.split_at_checked(name.len())?;
    let left = left_after(rest)?;
    if name == front { Some(left) } else { None }
}

// What is left behind the end of a name.
fn left_after(rest: &[u8]) -> Option<Left<'_>>
    ensures { option_map left_of result ≡ behind_dot (Some rest.now) }
{
    if rest.is_empty() {
        return Some(Left {
            is_end: true,
            names: None,
        });
    }
    let names = rest.strip_prefix(b".")?;
    Some(Left {
        is_end: false,
        names: Some(names),
    })
}
