//! The segments of a path (RFC 3986, section 3.3).
ghost use Rattle.std.specs.Prelude.{◌==◌, ◌∷◌};
ghost use Rattle.std.specs.List.{slice_split};
ghost use Rattle.es_route.specs.Paths.{SegmentsAre};

/// The segments of a path, or that there are more than any route has.
#[derive(Clone, Copy)]
pub enum Segments<'a> {
    One(&'a str),
    Two(&'a str, &'a str),
    Three(&'a str, &'a str, &'a str),
    Four(&'a str, &'a str, &'a str, &'a str),
    More,
}

/// What stands between the slashes, and behind the last.
pub fn segments_of(text: &str) -> Segments<'_>
    ensures { SegmentsAre result (slice_split (λ b. b == 47) text.now) }
{
    match text.split_once('/') {
        Some((first, rest)) => behind_one(first, rest),
        None => Segments::One(text),
    }
}

fn behind_one<'a>(first: &'a str, text: &'a str) -> Segments<'a>
    ensures { SegmentsAre result (first.now ∷ slice_split (λ b. b == 47) text.now) }
{
    match text.split_once('/') {
        Some((second, rest)) => behind_two(first, second, rest),
        None => Segments::Two(first, text),
    }
}

fn behind_two<'a>(first: &'a str, second: &'a str, text: &'a str) -> Segments<'a>
    ensures { SegmentsAre result (first.now ∷ second.now ∷ slice_split (λ b. b == 47) text.now) }
{
    match text.split_once('/') {
        Some((third, rest)) => behind_three(first, second, third, rest),
        None => Segments::Three(first, second, text),
    }
}

fn behind_three<'a>(first: &'a str, second: &'a str, third: &'a str, text: &'a str) -> Segments<'a>
    ensures { SegmentsAre result (first.now ∷ second.now ∷ third.now ∷ slice_split (λ b. b == 47) text.now) }
{
    match text.split_once('/') {
        Some((_fourth, _rest)) => Segments::More,
        None => Segments::Four(first, second, third, text),
    }
}
