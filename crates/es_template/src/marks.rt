//! Texts that are cut at a mark.
ghost use Rattle.std.specs.Prelude.{◌≡◌, ◌∷◌, IsTrue, reverse};
ghost use Rattle.std.specs.Option.{option_copied, option_map};
ghost use Rattle.es_template.specs.Marks.{behind, cut, parts, parts_left, IsShorter};
ghost use Rattle.es_template.specs.Tags.{has_bytes, spaces_dropped, trimmed};

/// What follows the mark at the front of a text.
pub fn behind<'a>(mark: &str, text: &'a str) -> Option<&'a str>
    ensures { option_copied result ≡ behind mark.now text.now }
{
    text.strip_prefix(mark)
}

/// What stands before the first place of the mark, and what behind it.
pub fn cut<'a>(mark: &str, text: &'a str) -> Option<(&'a str, &'a str)>
    ensures { option_map (λ found. (found.0.now, found.1.now)) result ≡ cut mark.now text.now }
{
    text.split_once(mark)
}

/// The first part of a text that is cut at each place of the mark, and what stands behind the mark that ends it.
pub fn first_part<'a>(mark: &str, text: &'a str) -> (&'a str, Option<&'a str>)
    requires { IsTrue (has_bytes mark.now) }
    ensures parts { result.0.now ∷ parts_left mark.now (option_copied result.1) ≡ parts mark.now text.now }
    ensures shorter { IsShorter (option_copied result.1) text.now }
{
    match cut(mark, text) {
        Some((part, rest)) => (part, Some(rest)),
        None => (text, None),
    }
}

/// The text without the spaces around it.
pub fn trimmed(text: &str) -> &str
    ensures { result.now ≡ trimmed text.now }
{
    without_last_spaces(without_first_spaces(text))
}

fn without_first_spaces(text: &str) -> &str
    ensures { result.now ≡ spaces_dropped text.now }
{
    let mut rest = text;
    while let Some(behind) = rest.strip_prefix(' ') {
        rest = behind;
    }
    rest
}

fn without_last_spaces(text: &str) -> &str
    ensures { result.now ≡ reverse (spaces_dropped (reverse text.now)) }
{
    let mut rest = text;
    while let Some(before) = rest.strip_suffix(' ') {
        rest = before;
    }
    rest
}
