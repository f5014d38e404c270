//! Names of users and of roles, and secrets.
ghost use Rattle.std.specs.Prelude.{◌≡◌, ◌↔◌, List, ℕ, IfOk, IsTrue};
ghost use Rattle.std.specs.List.{list_all, Contains};
ghost use Rattle.es_tree.specs.Rising.{is_rising};
ghost use Rattle.es_cred.specs.Names.{has_length, is_name, is_name_character, is_secret, is_secret_character, in_order};

use es_base::{NoMemory, Seq, Strs};

/// The user of a new node. It is neither put nor deleted.
pub const USER: &str = "elastic";

/// Its role, which is neither put nor deleted.
pub const ROLE: &str = "superuser";

/// Whether the text is a name of a user or of a role: 1 to 255 characters from space to `~` without `:` and `,`, with
/// `_` not at the front and a space at neither end.
#[tactic(auto, unfolding(crate::specs::Names::is_name))]
pub fn is_name(text: &str) -> bool
    ensures { result ≡ is_name text.now }
{
    let bytes = text.as_bytes();
    has_length(bytes, 1, 255)
        && are_name_characters(bytes)
        && !bytes.starts_with(b"_")
        && !bytes.starts_with(b" ")
        && !bytes.ends_with(b" ")
}

/// Whether the text is a secret: 1 to 128 characters from `!` to `~`.
#[tactic(auto, unfolding(crate::specs::Names::is_secret))]
pub fn is_secret(text: &str) -> bool
    ensures { result ≡ is_secret text.now }
{
    let bytes = text.as_bytes();
    has_length(bytes, 1, 128) && are_secret_characters(bytes)
}

fn has_length(bytes: &[u8], least: usize, greatest: usize) -> bool
    ensures { result ≡ has_length least greatest bytes.now }
{
    least <= bytes.len() && bytes.len() <= greatest
}

fn are_name_characters(bytes: &[u8]) -> bool
    ensures { result ≡ list_all is_name_character bytes.now }
{
    bytes
        .iter()
        .all(|b| (b' '..=b'~').contains(b) && *b != b':' && *b != b',')
}

fn are_secret_characters(bytes: &[u8]) -> bool
    ensures { result ≡ list_all is_secret_character bytes.now }
{
    bytes.iter().all(|b| (b'!'..=b'~').contains(b))
}

/// The names in byte order, each once.
pub fn in_order(names: Strs) -> Result<Strs, NoMemory>
    ensures ordered { IfOk result (λ ordered. ordered ≡ in_order names) }
    ensures rising { IfOk result (λ ordered. IsTrue (is_rising ordered)) }
    ensures members { (name : List ℕ) → IfOk result (λ ordered. Contains ordered name ↔ Contains names name) }
{
    let mut names = names.into_vec();
    names.sort_by(|one, other| one.text().cmp(other.text()))?;
    names.dedup_by(|one, other| one.text() == other.text());
    Ok(Seq::from_vec(names))
}
