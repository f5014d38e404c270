//! The options of the command line.
ghost use Rattle.std.specs.Prelude.{◌≡◌, ◌≤◌, map, option_map, string_bytes, Some, IfSome};
ghost use Rattle.esec_node.specs.Options.{options_as, number_in, in_range, once, secret_in, with_admin, with_block, with_journal, with_role_cache, with_bit_cache, with_option, next_option, options_from, no_options, limits_of};

use crate::given::Options;
use es_cred::is_secret;
use es_vault::Limits;
use es_wire::decimal_of;

/// No option.
fn no_options<'a>() -> Options<'a>
    ensures { options_as result ≡ no_options }
{
    Options {
        admin: None,
        block: None,
        journal: None,
        role_cache: None,
        bit_cache: None,
    }
}

/// The options that these words give: each one word and its value, in any order, each at most once.
pub fn options_in(words: &[String]) -> Option<Options<'_>>
    ensures { option_map options_as result ≡ options_from (Some no_options) (map string_bytes words.now) }
{
    let mut options = Some(no_options());
    let mut rest = words;
    while let Some((name, behind)) = rest.split_first() {
        let Some((value, more)) = behind.split_first() else {
            return None;
        };
        options = next_option(options, name.as_str(), value.as_str());
        rest = more;
    }
    options
}

/// The options with this one more, unless they are none already.
fn next_option<'a>(options: Option<Options<'a>>, name: &str, value: &'a str) -> Option<Options<'a>>
    ensures { option_map options_as result ≡ next_option (option_map options_as options.entry) name.now value.now }
{
    match options {
        Some(options) => with_option(options, name, value),
        None => None,
    }
}

/// The options with this one more.
fn with_option<'a>(options: Options<'a>, name: &str, value: &'a str) -> Option<Options<'a>>
    ensures { option_map options_as result ≡ with_option (options_as options.entry) name.now value.now }
{
    match name {
        "--admin" => with_admin(options, value),
        "--block" => with_block(options, value),
        "--journal" => with_journal(options, value),
        "--role-cache" => with_role_cache(options, value),
        "--bit-cache" => with_bit_cache(options, value),
        _ => None,
    }
}

/// The options with the secret, where it is one.
fn with_admin<'a>(options: Options<'a>, value: &'a str) -> Option<Options<'a>>
    ensures { option_map options_as result ≡ with_admin (options_as options.entry) (once (options_as options.entry).admin (secret_in value.now)) }
{
    let admin = Some(once_text(options.admin, secret_in(value))?);
    Some(Options {
        admin,
        block: options.block,
        journal: options.journal,
        role_cache: options.role_cache,
        bit_cache: options.bit_cache,
    })
}

/// The options with the size of a block.
fn with_block<'a>(options: Options<'a>, value: &str) -> Option<Options<'a>>
    ensures { option_map options_as result ≡ with_block (options_as options.entry) (once (options_as options.entry).block (number_in 1 1024 value.now)) }
{
    let block = Some(once(options.block, number_in(1, 1024, value))?);
    Some(Options {
        admin: options.admin,
        block,
        journal: options.journal,
        role_cache: options.role_cache,
        bit_cache: options.bit_cache,
    })
}

/// The options with the number of entries.
fn with_journal<'a>(options: Options<'a>, value: &str) -> Option<Options<'a>>
    ensures { option_map options_as result ≡ with_journal (options_as options.entry) (once (options_as options.entry).journal (number_in 1 200000 value.now)) }
{
    let journal = Some(once(options.journal, number_in(1, 200000, value))?);
    Some(Options {
        admin: options.admin,
        block: options.block,
        journal,
        role_cache: options.role_cache,
        bit_cache: options.bit_cache,
    })
}

/// The options with the number of composed roles.
fn with_role_cache<'a>(options: Options<'a>, value: &str) -> Option<Options<'a>>
    ensures { option_map options_as result ≡ with_role_cache (options_as options.entry) (once (options_as options.entry).role_cache (number_in 1 512 value.now)) }
{
    let role_cache = Some(once(options.role_cache, number_in(1, 512, value))?);
    Some(Options {
        admin: options.admin,
        block: options.block,
        journal: options.journal,
        role_cache,
        bit_cache: options.bit_cache,
    })
}

/// The options with the number of bits.
fn with_bit_cache<'a>(options: Options<'a>, value: &str) -> Option<Options<'a>>
    ensures { option_map options_as result ≡ with_bit_cache (options_as options.entry) (once (options_as options.entry).bit_cache (number_in 1 4096 value.now)) }
{
    let bit_cache = Some(once(options.bit_cache, number_in(1, 4096, value))?);
    Some(Options {
        admin: options.admin,
        block: options.block,
        journal: options.journal,
        role_cache: options.role_cache,
        bit_cache,
    })
}

/// What was found, where nothing was given before.
fn once(given: Option<u64>, found: Option<u64>) -> Option<u64>
    ensures once { result ≡ once given found }
    ensures found { IfSome result (λ n. found ≡ Some n) }
{
    match given {
        None => found,
        Some(_) => None,
    }
}

fn once_text<'a>(given: Option<&'a str>, found: Option<&'a str>) -> Option<&'a str>
    ensures { option_map (λ text. text.now) result ≡ once (option_map (λ text. text.now) given.entry) (option_map (λ text. text.now) found.entry) }
{
    match given {
        None => found,
        Some(_) => None,
    }
}

/// The text, if it is a secret.
fn secret_in(text: &str) -> Option<&str>
    ensures { option_map (λ secret. secret.now) result ≡ secret_in text.now }
{
    if is_secret(text) { Some(text) } else { None }
}

/// The number that a text writes, if it is in the range, which begins above 0: decimal, without sign or leading zero.
fn number_in(low: u64, high: u64, text: &str) -> Option<u64>
    ensures number { result ≡ number_in low high text.now }
    ensures within { IfSome result (λ n. (low ≤ n) × (n ≤ high)) }
{
    let bytes = text.as_bytes();
    match bytes {
        [] => None,
        [b'0', ..] => None,
        _ => in_range(low, high, decimal_of(bytes)),
    }
}

fn in_range(low: u64, high: u64, number: Option<u64>) -> Option<u64>
    ensures number { result ≡ in_range low high number }
    ensures within { IfSome result (λ n. (low ≤ n) × (n ≤ high)) }
{
    match number {
        Some(n) if low <= n && n <= high => Some(n),
        _ => None,
    }
}

/// How much a node may hold: 100,000 entries and 512 composed roles where nothing else is said.
pub fn limits_of(options: &Options<'_>) -> Limits
    ensures limits { result ≡ limits_of (options_as options.now) }
    ensures journal { 1 ≤ result.journal }
    ensures most { result.journal ≤ 200000 }
    ensures roles { 1 ≤ result.role_cache }
{
    Limits {
        journal: options.journal.unwrap_or(100000),
        role_cache: options.role_cache.unwrap_or(512) as usize,
    }
}
