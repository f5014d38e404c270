//! The lines of a schedule, and the calls that they start.
ghost use Rattle.std.specs.Prelude.{◌≡◌, ◌≤◌, ◌++◌, Some, None, IfOk, IfSome, MatchOption};
ghost use Rattle.std.specs.Option.{option_map};
ghost use Rattle.es_wire.specs.declared.request.Once.TheVariants as once;
ghost use Rattle.es_vault.specs.Answer.{IsMade};
ghost use Rattle.es_drill.specs.Lines as lines;
ghost use Rattle.es_drill.specs.Drilled.{most_lines};
ghost use Rattle.es_drill.specs.Keeping.{authorization_as, texts_as, line_as, actor_in, IsActor};

use es_base::{NoMemory, Seq, Str};
use es_edge::Draw;
use es_request::Call;
use es_route::read_call;
use es_wire::{Once, RawRequest};
use std::alloc::Global;

/// As many bytes has a line at the most, its line feed left out.
pub const LONGEST: usize = 1100000;

/// Who asks, as a line says it.
#[derive(Clone, Copy, Debug)]
pub enum Authorization<'a> {
    /// A single `-`.
    Nobody,
    /// The text behind `Bearer:`.
    Bearer(&'a str),
    /// The text behind `ApiKey:`.
    ApiKey(&'a str),
}

/// The texts of a call.
#[derive(Clone, Copy, Debug)]
pub struct Texts<'a> {
    /// One capital letter or more.
    pub method: &'a str,
    /// One byte or more without a space.
    pub target: &'a str,
    /// Who asks.
    pub authorization: Authorization<'a>,
    /// The rest of the line.
    pub body: &'a str,
}

/// What a line says. Actors have the numbers 1 to 26.
#[derive(Clone, Copy, Debug)]
pub enum Line<'a> {
    /// A call of an actor starts.
    Call(usize, Texts<'a>),
    /// The actor's call makes its next step.
    Step(usize),
    /// The actor's call makes all its steps.
    Run(usize),
}

impl<'a> Line<'a> {
    /// Whose line it is.
    pub fn actor(self) -> usize
        ensures { result ≡ actor_in self.entry }
    {
        match self {
            Line::Call(actor, _) | Line::Step(actor) | Line::Run(actor) => actor,
        }
    }
}

/// What a line says, its line feed left out; none of one that is too long, no UTF-8, or of no form.
pub fn line_of(bytes: &[u8]) -> Option<Line<'_>>
    ensures line { option_map line_as result ≡ lines.line_of bytes.now }
    ensures actor { IfSome result (λ line. IsActor (actor_in line)) }
{
    if bytes.len() > LONGEST {
        return None;
    }
    let Ok(text) = std::str::from_utf8(bytes) else {
        return None;
    };
    let (word, rest) = cut_of(text)?;
    line_with(word, rest)
}

// The line whose first word is this.
fn line_with<'a>(word: &str, rest: &'a str) -> Option<Line<'a>>
    ensures line { option_map line_as result ≡ lines.line_with word.now rest.now }
    ensures actor { IfSome result (λ line. IsActor (actor_in line)) }
{
    match word {
        "call" => call_in(rest),
        "step" => Some(Line::Step(actor_of(rest)?)),
        "run" => Some(Line::Run(actor_of(rest)?)),
        _ => None,
    }
}

// The line of a call, of what stands behind its first word.
fn call_in(text: &str) -> Option<Line<'_>>
    ensures line { option_map line_as result ≡ lines.call_in text.now }
    ensures actor { IfSome result (λ line. IsActor (actor_in line)) }
{
    let (name, rest) = cut_of(text)?;
    let actor = actor_of(name)?;
    let (method, rest) = cut_of(rest)?;
    if !is_method(method) {
        return None;
    }
    let (target, rest) = cut_of(rest)?;
    if target.is_empty() {
        return None;
    }
    let (word, body) = first_word(rest);
    let authorization = authorization_of(word)?;
    Some(Line::Call(
        actor,
        Texts {
            method,
            target,
            authorization,
            body,
        },
    ))
}

// What stands before the first space, and what stands behind it; none, where no space stands.
fn cut_of(text: &str) -> Option<(&str, &str)>
    ensures { MatchOption result (lines.cut_of text.now ≡ None) (λ cut. lines.cut_of text.now ≡ Some (record { word = cut.0.now; rest = cut.1.now })) }
{
    text.split_once(' ')
}

// The first word, and what stands behind its space.
fn first_word(text: &str) -> (&str, &str)
    ensures word { result.0.now ≡ (lines.first_word text.now).word }
    ensures rest { result.1.now ≡ (lines.first_word text.now).rest }
{
    match text.split_once(' ') {
        Some((word, rest)) => (word, rest),
        None => (text, ""),
    }
}

// The number of the actor that is named by one capital letter.
fn actor_of(name: &str) -> Option<usize>
    ensures actor { result ≡ lines.actor_of name.now }
    ensures range { IfSome result IsActor }
{
    match name.as_bytes() {
        [letter] if is_letter(*letter) => Some(usize::from(*letter - 64)),
        _ => None,
    }
}

// Whether it is one capital letter or more.
fn is_method(text: &str) -> bool
    ensures { result ≡ lines.are_some lines.is_letter text.now }
{
    !text.is_empty() && text.as_bytes().iter().all(|b| is_letter(*b))
}

fn is_letter(b: u8) -> bool
    ensures { result ≡ lines.is_letter b }
{
    65 <= b && b <= 90
}

// Who asks, by the word that says it.
fn authorization_of(word: &str) -> Option<Authorization<'_>>
    ensures { option_map authorization_as result ≡ lines.authorization_of word.now }
{
    if word == "-" {
        return Some(Authorization::Nobody);
    }
    let (scheme, text) = word.split_once(':')?;
    match scheme {
        "Bearer" => Some(Authorization::Bearer(text)),
        "ApiKey" => Some(Authorization::ApiKey(text)),
        _ => None,
    }
}

/// The call that the line of this number starts: its moment is a second for each line, and a request that draws is given sixteen
/// zero bytes.
pub fn call_at(alloc: Global, number: u64, texts: Texts<'_>) -> Result<Call, NoMemory>
    requires { number ≤ most_lines }
    ensures call { IfOk result (λ call. call ≡ lines.call_at number (texts_as texts.entry)) }
    ensures made { IfOk result (λ call. IsMade call) }
{
    let raw = raw_of(alloc, texts)?;
    let call = read_call(alloc, &raw, 1000 * number, Draw::NotDrawn)?;
    if call.request.draws() {
        return Ok(Call {
            draw: Draw::Bytes([0; 16]),
            ..call
        });
    }
    Ok(call)
}

// The request of the wire that has these texts.
fn raw_of(alloc: Global, texts: Texts<'_>) -> Result<RawRequest, NoMemory>
    ensures { IfOk result (λ raw. raw ≡ lines.raw_of (texts_as texts.entry)) }
{
    Ok(RawRequest {
        method: Str::of(alloc, texts.method)?,
        target: Seq::from_slice(alloc, texts.target.as_bytes())?,
        authorization: field_of(alloc, texts.authorization)?,
        run_as: Once::Absent,
        seen: Once::Absent,
        body: Seq::from_slice(alloc, texts.body.as_bytes())?,
        last: false,
    })
}

// The header that says who asks.
fn field_of(alloc: Global, authorization: Authorization<'_>) -> Result<Once, NoMemory>
    ensures { IfOk result (λ field. field ≡ authorization_as authorization.entry) }
{
    match authorization {
        Authorization::Nobody => Ok(Once::Absent),
        Authorization::Bearer(text) => field(alloc, b"Bearer ", text),
        Authorization::ApiKey(text) => field(alloc, b"ApiKey ", text),
    }
}

// The header of a scheme with its space, and a text.
fn field(alloc: Global, scheme: &[u8], text: &str) -> Result<Once, NoMemory>
    ensures { IfOk result (λ field. field ≡ once.One (scheme.now ++ text.now)) }
{
    let mut field = Seq::from_slice(alloc, scheme)?;
    field.extend(text.as_bytes())?;
    Ok(Once::One(field))
}
