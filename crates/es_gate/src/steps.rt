//! What each step on the table tells.
use crate::stands::Stands;
use crate::tickets::{Held, View};
use atomic_table::{Join, Play, Split};
use std::sync::ledger::Ledger;

// Takes the next ticket, where the word is the one that was expected.
pub(crate) struct Draw;

impl<V: Stands, G: Ledger> Play<Option<Held<V, G>>, View<V::Entry>> for Draw {
    ghost use Rattle.es_gate.specs.Turns.{drawn};

    ghost then = { drawn };
}

// Looks at the ticket that is served. A seat that has it takes the slot.
pub(crate) struct Look;

impl<V: Stands, G: Ledger> Play<Option<Held<V, G>>, View<V::Entry>> for Look {
    ghost use Rattle.es_gate.specs.Turns.{looked, LiesBeside};

    ghost then = { looked (LiesBeside V.entries) };
}

// Counts an entry. The step announces the value that stands for it.
pub(crate) struct Add;

impl<V: Stands, G: Ledger> Play<Option<Held<V, G>>, View<V::Entry>> for Add {
    ghost use Rattle.es_gate.specs.Turns.{added, listed};

    ghost then = { added (listed V.entries) };
}

// Serves the next ticket, and gives the slot back.
pub(crate) struct Leave;

impl<V: Stands, G: Ledger> Play<Option<Held<V, G>>, View<V::Entry>> for Leave {
    ghost use Rattle.es_gate.specs.Turns.{left};

    ghost then = { left };
}

// Learns what a seat had seen that was joined to this one.
pub(crate) struct Learn;

impl<V: Stands, G: Ledger> Play<Option<Held<V, G>>, View<V::Entry>> for Learn {
    ghost use Rattle.es_gate.specs.Turns.{learned};

    ghost then = { learned };
}

// Counts a sleeper or a wake.
pub(crate) struct Signal;

impl<V: Stands, G: Ledger> Play<Option<Held<V, G>>, View<V::Entry>> for Signal {
    ghost use Rattle.es_gate.specs.Turns.{unchanged};

    ghost then = { unchanged };
}

// A new seat has seen the same list, and found nothing.
pub(crate) struct SplitView;

impl<E> Split<View<E>> for SplitView {
    ghost use Rattle.es_gate.specs.Turns.{fresh};

    ghost left = { λ v. v };

    ghost right = { fresh };
}

// A seat hears what another had seen, which is then spent.
pub(crate) struct JoinViews;

impl<E> Join<View<E>> for JoinViews {
    ghost use Rattle.es_gate.specs.Turns.{both, spent};

    ghost both = { both };

    ghost spent = { spent };
}
