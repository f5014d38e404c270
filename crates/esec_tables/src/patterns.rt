//! Patterns of names, and which fields a rule grants.
use es_base::{Copied, Seq, Shared, Str};
use es_glob::{FieldClause, FieldPair, FieldRule, Pattern, PatternFault, PatternSet};
use esec_cells::{Cells, Fault, truth};
use std::alloc::Global;

/// TEXT: the text of the pattern that it is, or none.
pub fn text(alloc: Global, cells: &Cells) -> Result<Str, Fault> {
    match Pattern::read(alloc, cells.text(0)?) {
        Ok(pattern) => Ok(Str::of(alloc, pattern.copied(alloc)?.text())?),
        Err(PatternFault::BadPattern) => Ok(Str::of(alloc, "none")?),
        Err(PatternFault::NoMemory) => Err(Fault::NoMemory),
    }
}

/// PATTERN => TEXT: whether it fits.
pub fn fits(alloc: Global, cells: &Cells) -> Result<Str, Fault> {
    let pattern = pattern_of(alloc, cells.text(0)?)?;
    truth(alloc, pattern.matches(cells.text(1)?))
}

/// PATTERNS: their texts, with a comma between each two.
pub fn texts(alloc: Global, cells: &Cells) -> Result<Str, Fault> {
    let set = set_of(alloc, cells.text(0)?)?.copied(alloc)?;
    let mut text = Str::empty(alloc);
    for pattern in set.patterns().as_slice() {
        if !text.is_empty() {
            text.push(',')?;
        }
        text.push_str(pattern.text())?;
    }
    Ok(text)
}

/// PATTERNS => TEXT: whether one of them fits.
pub fn one_fits(alloc: Global, cells: &Cells) -> Result<Str, Fault> {
    let set = set_of(alloc, cells.text(0)?)?;
    truth(alloc, set.matches(cells.text(1)?))
}

/// FIRST => SECOND => PATH: whether the rule of these two clauses grants the field.
pub fn grants(alloc: Global, cells: &Cells) -> Result<Str, Fault> {
    let rule = FieldRule {
        first: clause_of(alloc, cells.text(0)?)?,
        second: clause_of(alloc, cells.text(1)?)?,
    };
    truth(alloc, rule.grants(cells.text(2)?))
}

/// The pattern that a text is.
pub fn pattern_of(alloc: Global, text: &str) -> Result<Pattern, Fault> {
    match Pattern::read(alloc, text) {
        Ok(pattern) => Ok(pattern),
        Err(PatternFault::BadPattern) => Err(Fault::Line),
        Err(PatternFault::NoMemory) => Err(Fault::NoMemory),
    }
}

/// Patterns with a comma between each two.
fn set_of(alloc: Global, texts: &str) -> Result<PatternSet, Fault> {
    let mut patterns = Seq::empty(alloc);
    if !texts.is_empty() {
        for text in texts.split(',') {
            patterns.push(pattern_of(alloc, text)?)?;
        }
    }
    Ok(PatternSet::of(patterns))
}

/// `all`, or pairs with a semicolon between each two, each with a bar between what is granted and what is excepted.
fn clause_of(alloc: Global, text: &str) -> Result<FieldClause, Fault> {
    if text == "all" {
        return Ok(FieldClause::All);
    }
    let mut pairs = Seq::empty(alloc);
    if !text.is_empty() {
        for pair in text.split(';') {
            match pair.split_once('|') {
                Some((grant, except)) => {
                    let pair = FieldPair {
                        grant: set_of(alloc, grant)?,
                        except: set_of(alloc, except)?,
                    };
                    pairs.push(Shared::new(alloc, pair.copied(alloc)?)?)?;
                }
                None => return Err(Fault::Line),
            }
        }
    }
    Ok(FieldClause::Any(pairs))
}
