//! Changes.
ghost use Rattle.std.specs.Prelude.{◌≡◌, ◌≤◌, ◌+◌, ℕ, true, IfOk, OnOk, OnErr, None};
ghost use Rattle.es_request.specs.Requests.{is_change};
ghost use Rattle.std.specs.List.{filter};
ghost use Rattle.std.specs.Map.{keys_of};
ghost use Rattle.es_records.specs.Changes.{drops};
ghost use Rattle.es_vault.specs.World.{security, doc};
ghost use Rattle.es_vault.specs.Replayable.{FitsAt};
ghost use Rattle.es_vault.specs.Decision.{decision, granted};
ghost use Rattle.es_vault.specs.Changes.{verdict_in};
ghost use Rattle.es_reply.specs.Bodies.{no_entropy};
ghost use Rattle.es_vault.specs.Answer.{IsMade, change_in, full, unless_full, accepted, refused};
ghost use Rattle.es_vault.specs.Vault.{changed_by};
ghost use Rattle.es_vault.specs.Steps.{Changes, VerdictFits};
ghost use Rattle.es_vault.specs.Lent.{change_as, verdict_as};

use crate::decision::granted_to;
use crate::half::Half;
use crate::judging::verdict_of;
use crate::stop::Stop;
use crate::vault::Vault;
use crate::verdict::{Change, Verdict};
use es_base::NoMemory;
use es_cache::Keys;
use es_catalog::DocChange;
use es_keys::Subject;
use es_records::{SecurityChange, drops};
use es_reply::{Reply, journal_full_bytes, journal_full_entries, no_entropy};
use es_request::Call;

/// What a change is answered.
#[derive(Drop)]
pub enum ChangeAnswer {
    /// It is accepted: the entry's place, and the reply.
    Changed(u64, Reply),
    /// It is refused, at this place.
    Refused(u64, Reply),
    /// The journal has no room for it, at this place.
    Full(u64, Reply),
}

/// What the journal may weigh, in bytes.
const WEIGHT: u64 = 134217728;

impl Vault {
    /// Judges a change of a subject to whom it is granted, and makes it where it is accepted. `began` is the count at the look
    /// that granted it; where another count stands now, it is decided again by the records that stand. Its place, its state and a new key's id are
    /// those of now, whatever the look's place was. All memory is taken before anything changes.
    pub fn change(
        &mut self,
        call: &Call,
        subject: &Subject,
        began: u64,
    ) -> Result<ChangeAnswer, NoMemory>
        requires made { IsMade call.now }
        requires change { is_change call.now.request ≡ true }
        requires reached { call.now.seen ≤ self.old.at.place }
        requires granted { began ≡ self.old.roles.count → decision self.old.at.world.records call.now ≡ granted subject.now }
        ensures ok { IfOk result (λ answer. (caller : ℕ) → Changes self.old self.new (change_in self.old.limit self.old.at (record { caller = caller; call = call.now })) answer) }
        ensures err { OnErr result (self.new ≡ self.old) }
    {
        if began == self.roles.count() {
            return self.change_for(call, subject);
        }
        self.change_anew(call)
    }

    // Decides the change by the records that stand, and makes it where it is granted and accepted.
    fn change_anew(&mut self, call: &Call) -> Result<ChangeAnswer, NoMemory>
        requires made { IsMade call.now }
        ensures ok { IfOk result (λ answer. (caller : ℕ) → Changes self.old self.new (change_in self.old.limit self.old.at (record { caller = caller; call = call.now })) answer) }
        ensures err { OnErr result (self.new ≡ self.old) }
    {
        match granted_to(self.alloc, &self.records, call) {
            Ok(subject) => self.change_for(call, &subject),
            Err(stop) => match stop {
                Stop::Reply(reply) => Ok(ChangeAnswer::Refused(self.place, reply)),
                Stop::NoMemory => Err(NoMemory),
            },
        }
    }

    // Makes the change of a subject to whom it is granted, where it is accepted.
    fn change_for(&mut self, call: &Call, subject: &Subject) -> Result<ChangeAnswer, NoMemory>
        requires made { IsMade call.now }
        requires granted { decision self.old.at.world.records call.now ≡ granted subject.now }
        ensures ok { IfOk result (λ answer. (caller : ℕ) → Changes self.old self.new (change_in self.old.limit self.old.at (record { caller = caller; call = call.now })) answer) }
        ensures err { OnErr result (self.new ≡ self.old) }
    {
        match self.verdict(call, subject)? {
            Verdict::Refuses(reply) => Ok(ChangeAnswer::Refused(self.place, reply)),
            Verdict::Accepts(reply, change) => self.accept_within(reply, change, call.weight),
            Verdict::Undrawn => self.undrawn(call.weight),
        }
    }

    // Makes a change that the state accepts, where the journal has room for an entry of this weight.
    fn accept_within(
        &mut self,
        reply: Reply,
        change: Change,
        weight: u64,
    ) -> Result<ChangeAnswer, NoMemory>
        requires fits { FitsAt (self.old.at.place + 1) (change_as change) }
        ensures ok { IfOk result (λ answer. (caller : ℕ) → Changes self.old self.new (unless_full (full self.old.limit self.old.at weight) (accepted reply (record { caller = caller; weight = weight; change = change_as change }))) answer) }
        ensures err { OnErr result (self.new ≡ self.old) }
    {
        if let Some(full) = self.refusal(weight)? {
            return Ok(ChangeAnswer::Full(self.place, full));
        }
        self.accept(change, weight)?;
        Ok(ChangeAnswer::Changed(self.place, reply))
    }

    // What comes of a change of this weight for which nothing was drawn.
    fn undrawn(&self, weight: u64) -> Result<ChangeAnswer, NoMemory>
        ensures { IfOk result (λ answer. Changes self.now self.now (unless_full (full self.now.limit self.now.at weight) (refused no_entropy)) answer) }
    {
        match self.refusal(weight)? {
            Some(full) => Ok(ChangeAnswer::Full(self.place, full)),
            None => Ok(ChangeAnswer::Refused(self.place, no_entropy(self.alloc)?)),
        }
    }

    // What the state says of the change, as the next entry.
    fn verdict(&self, call: &Call, subject: &Subject) -> Result<Verdict, NoMemory>
        requires made { IsMade call.now }
        ensures verdict { IfOk result (λ verdict. verdict_as verdict ≡ verdict_in self.now.at.world (self.now.at.place + 1) subject.now call.now.moment call.now.draw call.now.request) }
        ensures fits { IfOk result (λ verdict. VerdictFits (self.now.at.place + 1) (verdict_as verdict)) }
    {
        verdict_of(
            self.alloc,
            &self.records,
            &self.catalog,
            self.place + 1,
            subject,
            call,
        )
    }

    // The refusal of an entry of this weight, where the journal has no room for it.
    fn refusal(&self, asks: u64) -> Result<Option<Reply>, NoMemory>
        ensures { IfOk result (λ refusal. refusal ≡ full self.now.limit self.now.at asks) }
    {
        if self.limit <= self.place {
            let reply = journal_full_entries(self.alloc, self.place, self.limit)?;
            return Ok(Some(reply));
        }
        if asks <= WEIGHT - self.weight {
            return Ok(None);
        }
        let reply = journal_full_bytes(self.alloc, self.weight, WEIGHT, asks)?;
        Ok(Some(reply))
    }

    // Makes a change of this weight.
    fn accept(&mut self, change: Change, weight: u64) -> Result<(), NoMemory>
        requires room { full self.old.limit self.old.at weight ≡ None }
        requires fits { FitsAt (self.old.at.place + 1) (change_as change) }
        ensures ok { OnOk result ((caller : ℕ) → self.new ≡ changed_by self.old (record { caller = caller; weight = weight; change = change_as change })) }
        ensures err { OnErr result (self.new ≡ self.old) }
    {
        match change {
            Change::Security(change) => self.accept_security(&change, weight),
            Change::Doc(change) => self.accept_doc(&change, weight),
        }
    }

    // Makes a change of users, roles or keys, or a clearing. The composed roles that it drops leave the cache.
    fn accept_security(&mut self, change: &SecurityChange, weight: u64) -> Result<(), NoMemory>
        requires room { full self.old.limit self.old.at weight ≡ None }
        requires fits { FitsAt (self.old.at.place + 1) (security change.now) }
        ensures ok { OnOk result (self.new ≡ changed_by self.old (record { caller = 0; weight = weight; change = security change.now })) }
        ensures err { OnErr result (self.new ≡ self.old) }
    {
        let doomed = self.doomed(change)?;
        self.records = self.records.with(self.alloc, change)?;
        self.roles.drop_all(&doomed);
        self.roles.raise();
        self.place += 1;
        self.weight += weight;
        Ok(())
    }

    // The halves that the change drops.
    fn doomed(&self, change: &SecurityChange) -> Result<Keys<Half>, NoMemory>
        ensures { IfOk result (λ keys. keys ≡ filter (drops change.now) (keys_of self.now.roles.entries)) }
    {
        self.roles
            .doomed(self.alloc, |half: &Half| drops(change, half.key()))
    }

    // Makes a change of the indices or their documents.
    fn accept_doc(&mut self, change: &DocChange, weight: u64) -> Result<(), NoMemory>
        requires room { full self.old.limit self.old.at weight ≡ None }
        ensures ok { OnOk result (self.new ≡ changed_by self.old (record { caller = 0; weight = weight; change = doc change.now })) }
        ensures err { OnErr result (self.new ≡ self.old) }
    {
        let place = self.place + 1;
        self.catalog = self.catalog.with(self.alloc, change, place)?;
        self.place = place;
        self.weight += weight;
        Ok(())
    }
}
