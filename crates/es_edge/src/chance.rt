//! What is drawn by chance.
ghost use Rattle.std.specs.Prelude.{◌≡◌, ◌≢◌, ◌+◌, ◌≤◌, [], ◌∷◌, length, min, slice_get};
ghost use Rattle.es_edge.specs.Draws.{answer_by};
ghost use Rattle.es_edge.specs.Calls.{next_call};

use es_base::Seq;

/// What was drawn.
#[derive(Clone, Copy, Debug, PartialEq, Eq)]
pub enum Draw {
    /// Nothing was asked for.
    NotDrawn,
    /// The chance failed, and counted a fault.
    Failed,
    /// Sixteen bytes.
    Bytes([u8; 16]),
}

/// Draws in order.
pub type Draws = Seq<Draw>;

/// Bytes that nobody foresees.
pub trait Chance {
    ghost use Rattle.es_edge.specs.Draws.{Lots, Draws as DrawsOf};

    /// The chance as contracts see it.
    ghost lots: { Self → Lots };

    /// What a draw leaves alone, from the state before it to the state after it.
    ghost draw_leaves: { Self → Self → Type 0 };

    /// Sixteen bytes, or the failure to draw them.
    fn draw(&mut self) -> Draw
        ensures draws { DrawsOf (lots self.old) (lots self.new) (result ∷ []) }
        ensures drawn { result ≢ Draw.NotDrawn }
        ensures leaves { draw_leaves self.old self.new };

    /// No draw leaves all.
    ghost draw_leaves_same: { (chance : Self) → draw_leaves chance chance };

    /// What one draw and then another leave alone.
    ghost draw_leaves_then: { (a : Self) → (b : Self) → (c : Self) → draw_leaves a b → draw_leaves b c → draw_leaves a c };
}

/// A chance that gives what a list has, in order. It fails for a member that isn't bytes, and after the last.
#[derive(Drop)]
pub struct ListedChance {
    /// All members, given and left.
    pub draws: Draws,
    /// How many members were given.
    pub place: usize,
    pub calls: u64,
    pub faults: u64,
    ghost within: { place ≤ length draws },
}

impl ListedChance {
    /// A chance that has drawn nothing.
    pub fn new(draws: Draws) -> ListedChance
        ensures draws { result.draws ≡ draws }
        ensures place { result.place ≡ 0 }
        ensures calls { result.calls ≡ 0 }
        ensures faults { result.faults ≡ 0 }
    {
        ListedChance {
            draws,
            place: 0,
            calls: 0,
            faults: 0,
        }
    }
}

impl Chance for ListedChance {
    ghost use Rattle.std.specs.Prelude.{refl};
    ghost use Rattle.std.proofs.Common.{◌∙◌};
    ghost use Rattle.es_edge.specs.Draws.{Lots, Draws as DrawsOf};
    ghost use Rattle.es_edge.specs.Listed.{listed_lots};

    ghost lots = { listed_lots };

    ghost draw_leaves = { λ old new. new.draws ≡ old.draws };

    ghost draw_leaves_same = { λ _. refl };

    ghost draw_leaves_then = { λ _ _ _ first second. second ∙ first };

    fn draw(&mut self) -> Draw
        ensures draws { DrawsOf (listed_lots self.old) (listed_lots self.new) (result ∷ []) }
        ensures drawn { result ≢ Draw.NotDrawn }
        ensures leaves { self.new.draws ≡ self.old.draws }
        ensures gives { result ≡ answer_by (slice_get self.old.draws self.old.place) }
        ensures place { self.new.place ≡ min (self.old.place + 1) (length self.old.draws) }
        ensures calls { self.new.calls ≡ next_call self.old.calls }
    {
        self.calls = self.calls.saturating_add(1);
        let answer = answer_at(&self.draws, self.place);
        self.place = self.place.saturating_add(1).min(self.draws.len());
        if let Draw::Bytes(bytes) = answer {
            return Draw::Bytes(bytes);
        }
        self.faults = self.faults.saturating_add(1);
        Draw::Failed
    }
}

/// The answer by the member at a place.
fn answer_at(draws: &Draws, place: usize) -> Draw
    ensures { result ≡ answer_by (slice_get draws.now place) }
{
    match draws.as_slice().get(place) {
        Some(Draw::Bytes(bytes)) => Draw::Bytes(*bytes),
        _ => Draw::Failed,
    }
}
