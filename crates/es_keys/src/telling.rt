//! How denials name the subject of a request.
ghost use Rattle.std.specs.Prelude.{◌≡◌, ◌++◌, codes, IfOk, OnOk};
ghost use Rattle.es_keys.specs.Subjects.{caller_text, target_text, subject_text};

use crate::kinds::{Caller, Subject, Target};
use es_base::{NoMemory, Str};
use std::alloc::Global;

/// The caller: `user [NAME]`, or `API key id [ID] of user [NAME]` with the owner's name.
#[tactic(auto, unfolding(crate::specs::Subjects::caller_text))]
pub fn caller_text(alloc: Global, caller: &Caller) -> Result<Str, NoMemory>
    ensures { IfOk result (λ text. text ≡ caller_text caller.now) }
{
    match caller {
        Caller::User(user) => user_text(alloc, user.get().person.username.text()),
        Caller::Key(kept) => {
            let kept = kept.get();
            named_key(alloc, kept.id.text(), kept.owner.username.text())
        }
    }
}

fn user_text(alloc: Global, name: &str) -> Result<Str, NoMemory>
    ensures { IfOk result (λ text. text ≡ codes "user [" ++ (name.now ++ codes "]")) }
{
    Ok(Str::from_string(format!(in alloc; "user [{name}]")?))
}

fn named_key(alloc: Global, id: &str, owner: &str) -> Result<Str, NoMemory>
    ensures { IfOk result (λ text. text ≡ codes "API key id [" ++ (id.now ++ (codes "] of user [" ++ (owner.now ++ codes "]")))) }
{
    Ok(Str::from_string(format!(in alloc; "API key id [{id}] of user [{owner}]")?))
}

/// The caller, and behind it ` run as [NAME]` where it runs as another user. A target that isn't a user isn't named.
#[tactic(auto, unfolding(crate::specs::Subjects::subject_text))]
pub fn subject_text(alloc: Global, subject: &Subject) -> Result<Str, NoMemory>
    ensures { IfOk result (λ text. text ≡ subject_text subject.now) }
{
    let mut text = caller_text(alloc, &subject.caller)?;
    add_target(&mut text, &subject.target)?;
    Ok(text)
}

fn add_target(text: &mut Str, target: &Target) -> Result<(), NoMemory>
    ensures { OnOk result (text.new ≡ text.old ++ target_text target.now) }
{
    if let Target::As(user) = target {
        text.push_str(" run as [")?;
        text.push_str(user.get().person.username.text())?;
        text.push_str("]")?;
    }
    Ok(())
}
