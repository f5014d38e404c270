//! Who asks what of records.
use crate::bodies::asked_of;
use crate::changes::records_in;
use crate::decisions::decided;
use crate::keys::{LAST_MOMENT, LONGEST, PLACES};
use crate::printing::{descriptors_text, person_text};
use crate::subjects::halves_text;
use crate::texts::{cut_at_blank, number_of};
use es_base::Str;
use es_cred::Credentials;
use es_keys::{
    KeyRecord, NamedDescriptors, NewKey, Subject, Target, acting, key_text, make, subject_text,
};
use es_records::{Records, may_make};
use esec_cells::{Cells, Fault};
use std::alloc::Global;

/// Who asks, and when: credentials, the name of the user as whom they act, and a moment. What stands behind it is `rest`.
#[derive(Clone, Copy)]
pub struct Asking<'a> {
    pub field: &'a str,
    pub run_as: Option<&'a str>,
    pub moment: u64,
    pub rest: &'a str,
}

/// `FIELD at MOMENT` or `FIELD as NAME at MOMENT`, where FIELD is the field `authorization` with a colon in the place of its
/// blank, or `absent`.
pub fn asking_of(text: &str) -> Result<Asking<'_>, Fault> {
    let (field, rest) = cut_at_blank(text);
    let (run_as, rest) = target_in(rest);
    match rest.strip_prefix("at ") {
        Some(rest) => {
            let (moment, rest) = cut_at_blank(rest);
            Ok(Asking {
                field,
                run_as,
                moment: number_of(moment)?,
                rest,
            })
        }
        None => Err(Fault::Line),
    }
}

fn target_in(text: &str) -> (Option<&str>, &str) {
    match text.strip_prefix("as ") {
        Some(rest) => {
            let (name, rest) = cut_at_blank(rest);
            (Some(name), rest)
        }
        None => (None, text),
    }
}

/// The subject that asks, if the records know it.
pub fn subject_in(
    alloc: Global,
    records: &Records,
    asking: &Asking,
) -> Result<Option<Subject>, Fault> {
    let credentials = credentials_in(alloc, asking.field)?;
    Ok(records.who(&credentials, asking.run_as, asking.moment)?)
}

fn credentials_in(alloc: Global, field: &str) -> Result<Credentials, Fault> {
    match field.split_once(':') {
        Some((scheme, token)) => {
            let text = format!(in alloc; "{scheme} {token}")?;
            Ok(Credentials::read(alloc, Some(text.as_bytes()))?)
        }
        None => Ok(Credentials::read(alloc, None)?),
    }
}

/// STEPS => STEPS => ASKING => ASKED: what the subject that asks is told after the steps, and `none` where it isn't known.
/// ASKED is `who`, `acting`, `halves`, `limits`, `make place N NEWKEY`, or what `decided` decides.
pub fn request(alloc: Global, cells: &Cells) -> Result<Str, Fault> {
    let records = records_in(alloc, cells)?;
    let asking = asking_of(cells.text(2)?)?;
    match subject_in(alloc, &records, &asking)? {
        Some(subject) => told(alloc, &records, &subject, asking.moment, cells.text(3)?),
        None => Ok(Str::of(alloc, "none")?),
    }
}

fn told(
    alloc: Global,
    records: &Records,
    subject: &Subject,
    moment: u64,
    asked: &str,
) -> Result<Str, Fault> {
    match asked {
        "who" => who_text(alloc, subject),
        "acting" => person_text(alloc, acting(subject)),
        "halves" => halves_text(alloc, subject),
        "limits" => descriptors_text(alloc, &records.limits_for(alloc, subject)?),
        _ => match asked.strip_prefix("make ") {
            Some(rest) => made_text(alloc, records, subject, moment, rest),
            None => {
                let halves = records.halves(alloc, subject)?;
                decided(alloc, subject, &halves, asked)
            }
        },
    }
}

/// How denials name the subject; a target that isn't a user isn't named there.
fn who_text(alloc: Global, subject: &Subject) -> Result<Str, Fault> {
    let mut text = subject_text(alloc, subject)?;
    if let Target::Unknown = &subject.target {
        text.push_str(" as an unknown user")?;
    }
    Ok(text)
}

/// The printed key that the subject makes, or `derived key` where it may not.
fn made_text(
    alloc: Global,
    records: &Records,
    subject: &Subject,
    moment: u64,
    text: &str,
) -> Result<Str, Fault> {
    match made_by(alloc, records, subject, moment, text)? {
        Some(kept) => Ok(key_text(alloc, &kept)?),
        None => Ok(Str::of(alloc, "derived key")?),
    }
}

/// `place N NEWKEY`: the key that the subject makes of zeros that were drawn, if it may.
pub fn made_by(
    alloc: Global,
    records: &Records,
    subject: &Subject,
    moment: u64,
    text: &str,
) -> Result<Option<KeyRecord>, Fault> {
    let Some(rest) = text.strip_prefix("place ") else {
        return Err(Fault::Line);
    };
    let (place, body) = cut_at_blank(rest);
    let place = number_of(place)?;
    let asked = asked_of(alloc, body.as_bytes())?;
    if !may_make(subject, &asked.get().assigned) {
        return Ok(None);
    }
    let limits = records.limits_for(alloc, subject)?;
    let kept = key_of_zeros(alloc, subject, &limits, asked.get(), place, moment)?;
    Ok(Some(kept))
}

fn key_of_zeros(
    alloc: Global,
    subject: &Subject,
    limits: &NamedDescriptors,
    asked: &NewKey,
    place: u64,
    moment: u64,
) -> Result<KeyRecord, Fault> {
    if place >= PLACES || moment > LAST_MOMENT {
        return Err(Fault::Line);
    }
    if let Some(duration) = asked.expiration {
        if duration > LONGEST {
            return Err(Fault::Line);
        }
    }
    let owner = acting(subject);
    let (kept, _secret) = make(alloc, owner, limits, asked, place, moment, &[0u8; 16])?;
    Ok(kept)
}
