//! A connection from its first byte to its end, on a node of its own.
ghost use Rattle.std.specs.Prelude.{◌≡◌, ◌<◌, ◌≤◌, ◌+◌, true, ℕ, List, [], ◌∷◌, length, filter, IfOk, IfSome, OnOk, OnErr, Some, min};
ghost use Rattle.es_edge.specs.declared.sending.Sent.{Sent};
ghost use Rattle.es_edge.specs.Sends.{Sends};
ghost use Rattle.es_edge.specs.Draws.{Draws};
ghost use Rattle.es_response.specs.Reply.{response};
ghost use Rattle.es_session.specs.Legal.{moment_limit, is_drawn, HasCountedPlaces};
ghost use Rattle.es_session.specs.Ending.{ended_by};
ghost use Rattle.es_session.specs.Session.{IsRunOf, Ends};
ghost use Rattle.es_route.specs.Reading.{call_of};
ghost use Rattle.es_vault.specs.World.{World, Entry, StandsFor, opening_entry, opening_world};
ghost use Rattle.es_vault.specs.Answer.{IsMade};
ghost use Rattle.es_drive.specs.Answer.{node};
ghost use Rattle.es_drive.specs.Hits.{HasHits, opened_vault, count_of};
ghost use Rattle.es_drive.specs.Tallies.{Tallies, TalliesOne, TalliesIn};
ghost use Rattle.es_drive.specs.Turns.{caller, state, Grows, DrawsOnce, RepliesFrom, TurnsFrom, turn_for};

use crate::alone::run_alone;
use es_base::{NoMemory, Seq};
use es_edge::{Chance, Clock, Draw, Sent, Sink, Source, put};
use es_reply::{Reply, fixed};
use es_request::Call;
use es_route::read_call;
use es_vault::{Limits, Vault};
use es_wire::{Conn, LinkEnd, Next, RawRequest, Receipt, Receipts, send};
use std::alloc::Global;

/// As many requests are answered on a connection at the most.
const REQUESTS: usize = 1000000;

/// The greatest moment, in milliseconds since 1970.
const LAST_MOMENT: u64 = 4000000000000000;

/// How a run ended.
#[derive(Drop)]
pub struct Ran {
    /// Why the connection ended.
    pub ended: LinkEnd,
    /// One for each answered request, in order.
    pub receipts: Receipts,
    /// The length of the journal at the end, and 0 where the connection couldn't be opened.
    pub place: u64,
    /// How many looks found each of their halves in the role cache.
    pub hits: u64,
}

/// What a turn leaves to do.
#[derive(Clone, Copy, Debug, PartialEq, Eq)]
pub enum Turn {
    /// A request was answered.
    Goes,
    /// A request was answered, and it asked for the close.
    Closes,
    /// The connection ended.
    Ends(LinkEnd),
}

/// Reads requests from a source, answers each on a node of its own, whose one user has this secret, and writes the responses to a sink.
/// A request that draws is answered with what the chance gives.
///
/// Want of memory before the connection is opened writes nothing; later it writes the fixed 503 and ends the connection.
pub fn run_script<S: Source, K: Sink, C: Clock, H: Chance>(
    alloc: Global,
    secret: &str,
    limits: Limits,
    source: &mut S,
    sink: &mut K,
    clock: &C,
    chance: &mut H,
) -> Ran
    requires journal { 1 ≤ limits.journal }
    requires most { limits.journal ≤ 200000 }
    requires roles { 1 ≤ limits.role_cache }
    requires source_is_open { (S.input source.old).is_open ≡ true }
    requires sink_is_open { (K.output sink.old).is_open ≡ true }
    ensures run { IsRunOf (node limits.journal (opening_world secret.now)) caller (C.moment clock.now) (opening_entry ∷ []) result.receipts result.ended result.place
        (S.input source.old) (S.input source.new) (K.output sink.old) (K.output sink.new) (H.lots chance.old) (H.lots chance.new) }
    ensures places { HasCountedPlaces 1 result.receipts }
    ensures hits { HasHits (opened_vault secret.now limits.journal limits.role_cache) (S.input source.old) (S.input source.new) result.receipts result.hits }
    ensures read_leaves { S.read_leaves source.old source.new }
    ensures write_leaves { K.write_leaves sink.old sink.new }
    ensures draw_leaves { H.draw_leaves chance.old chance.new }
{
    let Ok(mut conn) = Conn::open(alloc) else {
        return unopened(alloc);
    };
    let Ok(mut vault) = Vault::open(alloc, secret, limits) else {
        return unopened(alloc);
    };
    let mut receipts = Vec::new(alloc);
    let mut hits = 0;
    let ended = serve(
        alloc,
        &mut conn,
        &mut vault,
        &mut receipts,
        &mut hits,
        source,
        sink,
        clock,
        chance,
    );
    Ran {
        ended,
        receipts: Seq::from_vec(receipts),
        place: vault.seen(),
        hits,
    }
}

/// The end of a connection that couldn't be opened.
fn unopened(alloc: Global) -> Ran
    ensures ended { result.ended ≡ LinkEnd.NoMemory }
    ensures receipts { result.receipts ≡ [] }
    ensures place { result.place ≡ 0 }
    ensures hits { result.hits ≡ 0 }
{
    Ran {
        ended: LinkEnd::NoMemory,
        receipts: Seq::empty(alloc),
        place: 0,
        hits: 0,
    }
}

/// Serves until the connection ends.
fn serve<S: Source, K: Sink, C: Clock, H: Chance>(
    alloc: Global,
    conn: &mut Conn,
    vault: &mut Vault,
    receipts: &mut Vec<Receipt>,
    hits: &mut u64,
    source: &mut S,
    sink: &mut K,
    clock: &C,
    chance: &mut H,
) -> LinkEnd
    requires source_is_open { (S.input source.old).is_open ≡ true }
    requires sink_is_open { (K.output sink.old).is_open ≡ true }
    requires none { receipts.old.items ≡ [] }
    requires uncounted { hits.old ≡ 0 }
    requires opening { StandsFor vault.old.at.world (opening_entry ∷ []) vault.old.at }
    ensures session { (J : List Entry) × (rest : List ℕ) × Grows vault.old.at.world (opening_entry ∷ []) J vault.new.at [] receipts.new.items
        × Ends (node vault.old.limit vault.old.at.world) caller (C.moment clock.now) (state (opening_entry ∷ []) conn.old [] (S.input source.old) (K.output sink.old) (H.lots chance.old))
        (state J rest receipts.new.items (S.input source.new) (K.output sink.new) (H.lots chance.new)) result }
    ensures hits { Tallies vault.old conn.old (S.input source.old) (S.input source.new) [] receipts.new.items 0 hits.new }
    ensures read_leaves { S.read_leaves source.old source.new }
    ensures write_leaves { K.write_leaves sink.old sink.new }
    ensures draw_leaves { H.draw_leaves chance.old chance.new }
{
    for i in 0..REQUESTS {
        match serve_next(
            alloc, conn, vault, receipts, hits, source, sink, clock, chance,
        ) {
            Turn::Goes => {}
            Turn::Closes => {
                return if i == REQUESTS - 1 {
                    LinkEnd::Spent
                } else {
                    LinkEnd::Done
                };
            }
            Turn::Ends(ended) => return ended,
        }
    }
    LinkEnd::Spent
}

/// Reads and answers one request, or finds that the connection ends.
fn serve_next<S: Source, K: Sink, C: Clock, H: Chance>(
    alloc: Global,
    conn: &mut Conn,
    vault: &mut Vault,
    receipts: &mut Vec<Receipt>,
    hits: &mut u64,
    source: &mut S,
    sink: &mut K,
    clock: &C,
    chance: &mut H,
) -> Turn
    requires source_is_open { (S.input source.old).is_open ≡ true }
    requires sink_is_open { (K.output sink.old).is_open ≡ true }
    requires few { length receipts.old.items < REQUESTS }
    requires counted { hits.old ≤ length receipts.old.items }
    ensures turn { (w : World) (J : List Entry) → StandsFor w J vault.old.at
        → TurnsFrom vault.old.limit w (C.moment clock.now) J vault.new.at conn.old conn.new receipts.old.items receipts.new.items
        (S.input source.old) (S.input source.new) (K.output sink.old) (K.output sink.new) (H.lots chance.old) (H.lots chance.new) result }
    ensures hits { TalliesIn vault.old vault.new conn.old conn.new (S.input source.old) (S.input source.new) receipts.old.items receipts.new.items hits.old hits.new result }
    ensures counted { hits.new ≤ length receipts.new.items }
    ensures limit { vault.new.limit ≡ vault.old.limit }
    ensures source_is_open { (S.input source.new).is_open ≡ true }
    ensures sink_is_open { (K.output sink.new).is_open ≡ true }
    ensures read_leaves { S.read_leaves source.old source.new }
    ensures write_leaves { K.write_leaves sink.old sink.new }
    ensures draw_leaves { H.draw_leaves chance.old chance.new }
{
    match conn.next(source) {
        Next::Request(raw) => {
            let Ok(answered) = answer_next(alloc, &raw, vault, receipts, hits, clock, chance) else {
                return last_word(sink, fixed(503), LinkEnd::NoMemory);
            };
            match send(sink, &answered.reply, Some(answered.place), raw.last) {
                Sent::Ok => turn_after(raw.last),
                Sent::WriteFault => Turn::Ends(LinkEnd::WriteFault),
            }
        }
        Next::Ended => Turn::Ends(LinkEnd::Done),
        Next::Truncated => Turn::Ends(LinkEnd::Truncated),
        Next::BadHead => last_word(sink, fixed(400), LinkEnd::BadHead),
        Next::ReadFault => Turn::Ends(LinkEnd::ReadFault),
        Next::NoMemory => last_word(sink, fixed(503), LinkEnd::NoMemory),
    }
}

/// Whether the connection goes on after a request.
fn turn_after(last: bool) -> Turn
    ensures { result ≡ turn_for last }
{
    if last { Turn::Closes } else { Turn::Goes }
}

/// A reply and its place.
#[derive(Drop)]
struct Placed {
    reply: Reply,
    place: u64,
}

/// Answers one request, keeps its receipt and counts its hit. Want of memory changes no world.
fn answer_next<C: Clock, H: Chance>(
    alloc: Global,
    raw: &RawRequest,
    vault: &mut Vault,
    receipts: &mut Vec<Receipt>,
    hits: &mut u64,
    clock: &C,
    chance: &mut H,
) -> Result<Placed, NoMemory>
    requires counted { hits.old ≤ length receipts.old.items }
    ensures ok { IfOk result (λ placed. (w : World) (J : List Entry) → StandsFor w J vault.old.at
        → RepliesFrom vault.old.limit w (C.moment clock.now) J vault.new.at raw.now receipts.old.items receipts.new.items (H.lots chance.old) (H.lots chance.new)
        (response placed.reply (Some placed.place) raw.now.last)) }
    ensures err { OnErr result ((vault.new.at ≡ vault.old.at) × (receipts.new.items ≡ receipts.old.items) × DrawsOnce (H.lots chance.old) (H.lots chance.new)) }
    ensures hits { IfOk result (λ placed. TalliesOne vault.old vault.new raw.now receipts.old.items receipts.new.items hits.old hits.new) }
    ensures uncounted { OnErr result (hits.new ≡ hits.old) }
    ensures counted { hits.new ≤ length receipts.new.items }
    ensures limit { vault.new.limit ≡ vault.old.limit }
    ensures draw_leaves { H.draw_leaves chance.old chance.new }
{
    receipts.reserve(1)?;
    let moment = moment_of(clock);
    let call = drawn_call(alloc, raw, moment, chance)?;
    let draw = call.draw;
    let done = run_alone(alloc, call, vault)?;
    let receipt = Receipt {
        place: vault.seen(),
        moment,
        changed: done.changed,
        draw,
    };
    receipts.push(receipt).unwrap();
    *hits += count_of(done.trail.hit());
    Ok(Placed {
        reply: done.reply,
        place: receipt.place,
    })
}

/// A hit counts.
fn count_of(hit: bool) -> u64
    ensures { result ≡ count_of hit }
{
    if hit { 1 } else { 0 }
}

/// The call that a request is, with what was drawn for it, if it draws.
fn drawn_call<H: Chance>(
    alloc: Global,
    raw: &RawRequest,
    moment: u64,
    chance: &mut H,
) -> Result<Call, NoMemory>
    requires { moment ≤ moment_limit }
    ensures made { IfOk result (λ call. IsMade call) }
    ensures call { IfOk result (λ call. call ≡ call_of raw.now moment call.draw) }
    ensures drew { IfOk result (λ call. Draws (H.lots chance.old) (H.lots chance.new) (filter is_drawn (call.draw ∷ []))) }
    ensures err { OnErr result (chance.new ≡ chance.old) }
    ensures draw_leaves { H.draw_leaves chance.old chance.new }
{
    let call = read_call(alloc, raw, moment, Draw::NotDrawn)?;
    if call.request.draws() {
        let draw = chance.draw();
        return Ok(Call { draw, ..call });
    }
    Ok(call)
}

/// The clock's moment, or the greatest.
fn moment_of<C: Clock>(clock: &C) -> u64
    ensures limit { result ≤ moment_limit }
    ensures told { IfSome (C.moment clock.now) (λ told. result ≡ min told moment_limit) }
{
    clock.now().min(LAST_MOMENT)
}

/// Writes a fixed response, after which the connection ends.
fn last_word<K: Sink>(sink: &mut K, word: &[u8], ended: LinkEnd) -> Turn
    requires { (K.output sink.old).is_open ≡ true }
    ensures word { (sent : Sent) × Sends (K.output sink.old) (K.output sink.new) word.now sent × (result ≡ Turn.Ends (ended_by ended sent)) }
    ensures sink_is_open { (K.output sink.new).is_open ≡ true }
    ensures leaves { K.write_leaves sink.old sink.new }
{
    match put(sink, word) {
        Sent::Ok => Turn::Ends(ended),
        Sent::WriteFault => Turn::Ends(LinkEnd::WriteFault),
    }
}
