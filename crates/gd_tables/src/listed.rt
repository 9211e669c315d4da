// The tables of one list: their names and what they state.
ghost use Rattle.std.specs.Prelude.{◌≡◌, ◌<◌, [], ◌∷◌, ◌++◌, length, IfSome, OnErr, OnOk, false};
ghost use Rattle.gd_tables.specs.Listed.{place_of};
ghost use Rattle.gd_keys.specs.Keys.{is_among};

use gd_base::{Memory, Name};
use indexmap::IndexSet;
use std::alloc::Global;

/// The names of the tables that were read, in order, and what each states.
#[derive(Drop)]
pub struct Listed<T> {
    pub names: IndexSet<Name>,
    pub items: Vec<T>,
}

impl<T: Drop> Listed<T> {
    /// No tables.
    pub fn new(alloc: Global) -> Listed<T>
        ensures names { result.names.keys ≡ [] }
        ensures items { result.items.items ≡ [] }
    {
        Listed {
            names: IndexSet::new(alloc),
            items: Vec::new(alloc),
        }
    }

    /// Adds a table whose name is new. On `Memory` the list is as it was.
    pub fn add(&mut self, name: Name, item: T) -> Result<(), Memory>
        requires { is_among self.old.names.keys name ≡ false }
        ensures names { OnOk result (self.new.names.keys ≡ self.old.names.keys ++ name ∷ []) }
        ensures items { OnOk result (self.new.items.items ≡ self.old.items.items ++ item ∷ []) }
        ensures kept_names { OnErr result (self.new.names.keys ≡ self.old.names.keys) }
        ensures kept_items { OnErr result (self.new.items.items ≡ self.old.items.items) }
    {
        self.items.reserve(1)?;
        self.names.insert(name)?;
        self.items.push_reserved(item);
        Ok(())
    }

    /// Whether a table has this name.
    pub fn has(&self, name: &Name) -> bool
        ensures { result ≡ is_among self.now.names.keys name.now }
    {
        self.names.contains(name)
    }

    /// The place of the table with this name.
    pub fn place_of(&self, name: &Name) -> Option<usize>
        ensures place { result ≡ place_of self.now.names.keys name.now }
        ensures within { IfSome result (λ place. place < length self.now.names.keys) }
    {
        self.names.get_index_of(name)
    }
}
