//! A query that was made ready, on a document.
ghost use Rattle.std.specs.Prelude.{◌≡◌, map, nat_le};
ghost use Rattle.std.specs.List.{list_all, list_any};
ghost use Rattle.es_match.specs.Asked.{asks_of};
ghost use Rattle.es_match.specs.Holds.{how_many, minimum_of};
ghost use Rattle.es_match.specs.Ready.{matcher_holds};

use crate::matcher::{FieldTest, Matcher};
use es_mapping::Mapping;
use es_path::{ScalarTest, any_at};
use es_query::Clauses;
use es_tree::Tree;
use es_value::read_lent;
use itoa::Buffer;

impl ScalarTest for FieldTest {
    ghost holds_of = { λ test scalar. asks_of test.kind test.asked scalar };

    #[tactic(auto, unfolding(crate::specs::Asked::asks_of))]
    fn holds(&self, scalar: &Tree) -> bool {
        let mut digits = Buffer::new();
        match read_lent(self.kind, scalar, &mut digits) {
            Some(value) => self.asked.meets(value),
            None => false,
        }
    }
}

impl Matcher {
    /// Whether the query holds on the document, which was written with this mapping. It takes no memory.
    #[cycle(testing)]
    #[tactic(auto, unfolding(crate::specs::Ready::matcher_holds))]
    pub fn holds_under(&self, written: &Mapping, document: &Tree) -> bool
        ensures { result ≡ matcher_holds written.now document.now self.now }
    {
        match self {
            Matcher::Always(holds) => *holds,
            Matcher::Field(path, test) => {
                any_at(document, path.text(), test) && written.kind(path.text()).is_some()
            }
            Matcher::Bool(clauses) => {
                all_hold(clauses.must.as_slice(), written, document)
                    && all_hold(clauses.filter.as_slice(), written, document)
                    && !any_holds(clauses.must_not.as_slice(), written, document)
                    && enough_hold(
                        clauses.should.as_slice(),
                        minimum_of(clauses),
                        written,
                        document,
                    )
            }
        }
    }
}

fn minimum_of(clauses: &Clauses<Matcher>) -> u64
    ensures { result ≡ minimum_of clauses.now }
{
    match clauses.minimum {
        Some(minimum) => minimum,
        None => {
            let is_alone = clauses.must.is_empty() && clauses.filter.is_empty();
            if is_alone && !clauses.should.is_empty() {
                1
            } else {
                0
            }
        }
    }
}

#[cycle(testing)]
fn all_hold(matchers: &[Matcher], written: &Mapping, document: &Tree) -> bool
    ensures { result ≡ list_all (λ b. b) (map (matcher_holds written.now document.now) matchers.now) }
{
    for matcher in matchers {
        if !matcher.holds_under(written, document) {
            return false;
        }
    }
    true
}

#[cycle(testing)]
fn any_holds(matchers: &[Matcher], written: &Mapping, document: &Tree) -> bool
    ensures { result ≡ list_any (λ b. b) (map (matcher_holds written.now document.now) matchers.now) }
{
    for matcher in matchers {
        if matcher.holds_under(written, document) {
            return true;
        }
    }
    false
}

#[cycle(testing)]
fn enough_hold(matchers: &[Matcher], minimum: u64, written: &Mapping, document: &Tree) -> bool
    ensures { result ≡ nat_le minimum (how_many (map (matcher_holds written.now document.now) matchers.now)) }
{
    let mut missing = minimum;
    for matcher in matchers {
        if missing == 0 {
            return true;
        }
        if matcher.holds_under(written, document) {
            missing -= 1;
        }
    }
    missing == 0
}
