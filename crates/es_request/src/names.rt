//! Names of indices, and ids of documents.
ghost use Rattle.std.specs.Prelude.{◌≡◌};
ghost use Rattle.std.specs.List.{list_all};
ghost use Rattle.es_request.specs.Names.{is_index_name, is_document_id, is_name_start, is_name_byte, starts_name};

/// Whether the text is an index's name: 1 to 255 bytes of `a` to `z`, digits, `-`, `_` and `.`, of which the first is a letter
/// or a digit.
#[tactic(auto, unfolding(crate::specs::Names::is_index_name))]
pub fn is_index_name(name: &str) -> bool
    ensures { result ≡ is_index_name name.now }
{
    let bytes = name.as_bytes();
    let each = has_name_bytes(bytes);
    starts_name(bytes) && bytes.len() <= 255 && each
}

/// Whether the text is a document's id: 1 to 512 bytes.
#[tactic(auto, unfolding(crate::specs::Names::is_document_id))]
pub fn is_document_id(id: &str) -> bool
    ensures { result ≡ is_document_id id.now }
{
    1 <= id.len() && id.len() <= 512
}

fn starts_name(name: &[u8]) -> bool
    ensures { result ≡ starts_name name.now }
{
    match name {
        [first, ..] => is_name_start(*first),
        [] => false,
    }
}

fn is_name_start(byte: u8) -> bool
    ensures { result ≡ is_name_start byte }
{
    byte.is_ascii_lowercase() || byte.is_ascii_digit()
}

fn has_name_bytes(name: &[u8]) -> bool
    ensures { result ≡ list_all is_name_byte name.now }
{
    name.iter().all(|b| is_name_byte(*b))
}

fn is_name_byte(byte: u8) -> bool
    ensures { result ≡ is_name_byte byte }
{
    is_name_start(byte) || byte == b'-' || byte == b'_' || byte == b'.'
}
