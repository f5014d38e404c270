//! What a form of values is.
ghost use Rattle.std.specs.Prelude.{◌≡◌, List, ℕ, Option, Some, Bool, false, Ok, IfOk, IsTrue};
ghost use Rattle.es_tree.specs.declared.tree.Tree.{Tree};
ghost use Rattle.es_tree.specs.Nulls.{is_null};
ghost use Rattle.es_grammar.specs.Reading.{Reading, Gives};

use es_base::NoMemory;
use es_tree::{BodyFault, Tree};
use std::alloc::Global;

/// A form of values: what each tree of it means.
pub trait Form {
    /// What a value of the form means.
    type Out: Drop;

    ghost form: { Tree → Reading Self.Out };

    ghost sound: { Self.Out → Bool };

    /// What the tree means, or the place of its first fault.
    fn read(alloc: Global, tree: &Tree) -> Result<Self::Out, BodyFault>
        ensures gives { Gives result (form tree.now) }
        ensures sound { IfOk result (λ value. IsTrue (sound value)) };
}

/// A form whose values are printed.
pub trait Prints: Form {
    ghost tree: { Self.Out → Tree };

    /// The tree that the value prints as. It reads back.
    fn print(alloc: Global, value: &Self::Out) -> Result<Tree, NoMemory>
        ensures tree { IfOk result (λ printed. printed ≡ tree value.now) }
        ensures reads_back { IfOk result (λ printed. IsTrue (Self.sound value.now) → Self.form printed ≡ Ok value.now) };
}

/// A form whose values never print as null, so that null can stand for the absence of one.
pub trait PrintsValue: Prints {
    ghost never_null: { (value : Self.Out) → IsTrue (Self.sound value) → is_null (Self.tree value) ≡ false };
}

/// A form of a member that its name decides.
pub trait MemberForm {
    /// What a member means.
    type Out: Drop;

    ghost form: { List ℕ → Tree → Reading Self.Out };

    /// What the member means, or the place of its first fault, seen from its value.
    fn read(alloc: Global, name: &str, tree: &Tree) -> Result<Self::Out, BodyFault>
        ensures { Gives result (form name.now tree.now) };
}

/// Texts that spell something.
pub trait Spelling {
    /// What a text spells.
    type Out: Drop;

    ghost named: { List ℕ → Option Self.Out };

    /// What the text spells, if it spells anything.
    fn parse(alloc: Global, text: &str) -> Result<Option<Self::Out>, NoMemory>
        ensures { IfOk result (λ found. found ≡ named text.now) };
}

/// A spelling whose values are printed.
pub trait Spelled: Spelling {
    ghost spelled: { Self.Out → List ℕ };

    /// The text that spells the value. It is parsed to the same.
    fn text(value: &Self::Out) -> &str
        ensures text { result.now ≡ spelled value.now }
        ensures parses_back { Self.named result.now ≡ Some value.now };
}

/// Which names an object's members may have.
pub trait Name {
    ghost permits: { List ℕ → Bool };

    /// Whether a member may have the name.
    fn permits(name: &str) -> bool
        ensures { result ≡ permits name.now };
}
