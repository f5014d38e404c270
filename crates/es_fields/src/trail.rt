//! The names that lead to a place in a document, as one text.
ghost use Rattle.std.specs.Prelude.{◌≡◌, [], ◌∷◌, ◌++◌, length, take, IfOk, OnOk};
ghost use Rattle.std.specs.String.Boundary.{IsSplitPoint};
ghost use Rattle.es_fields.specs.Trails.{without_dot};

use es_base::NoMemory;
use std::alloc::Global;
use std::marker::Model;

/// The names of the members on the way to a place, with a dot before each: it grows on the way in, and is cut back on
/// the way out. Contracts see its bytes.
#[derive(Drop)]
pub(crate) struct Trail {
    text: String,
}

impl Model for Trail {
    ghost use Rattle.std.specs.Prelude.{List, ℕ, string_bytes};

    ghost Value = { List ℕ };

    ghost view = { λ trail. string_bytes trail.text };
}

impl Trail {
    /// The trail to the document itself.
    pub(crate) fn new(alloc: Global) -> Trail
        ensures { result ≡ [] }
    {
        Trail {
            text: String::new(alloc),
        }
    }

    /// Goes on to the member of this name, and tells where to cut the trail to come back.
    pub(crate) fn enter(&mut self, name: &str) -> Result<usize, NoMemory>
        ensures place { IfOk result (λ place. place ≡ length self.old) }
        ensures trail { OnOk result (self.new ≡ self.old ++ (46 ∷ name.now)) }
    {
        let place = self.text.len();
        self.text.push('.')?;
        self.text.push_str(name)?;
        Ok(place)
    }

    /// Cuts the trail at a place.
    pub(crate) fn cut(&mut self, place: usize)
        requires { IsSplitPoint self.old place }
        ensures { self.new ≡ take place self.old }
    {
        self.text.truncate(place);
    }

    /// The path of the place: the names with a dot between each two.
    pub(crate) fn path(&self) -> &str
        ensures { result.now ≡ without_dot self.now }
    {
        let text = self.text.as_str();
        match text.strip_prefix('.') {
            Some(path) => path,
            None => text,
        }
    }
}
