//! A short list of watches.
ghost use Rattle.std.specs.{Prelude.{◌≡◌, ◌==◌, ◌<◌, ◌≤◌, [], ◌∷◌, ◌++◌, length, slice_index_or, OnOk, OnErr}, List.{remove}};

use crate::watch::Watch;
use map_items::NoMemory;
use std::alloc::Global;
use std::marker::Model;

/// At most four watches, in order. Their logs are written in place.
#[derive(Drop)]
pub struct Watches {
    pub items: Vec<Watch>,
}

impl Model for Watches {
    ghost use Rattle.std.specs.Prelude.{List, ◌≤◌, length};
    ghost use Rattle.kd_mark.specs.declared.watch.Watch.{Watch};

    ghost Value = { List Watch };

    ghost view = { λ w. w.items.items };

    ghost invariant = { λ w. length w.items.items ≤ 4 };
}

impl Watches {
    /// Takes no memory.
    pub fn new(alloc: Global) -> Watches
        ensures { result ≡ [] }
    {
        Watches {
            items: Vec::new(alloc),
        }
    }

    pub fn len(&self) -> usize
        ensures value { result ≡ length self.now }
        ensures few { result ≤ 4 }
    {
        self.items.len()
    }

    pub fn is_empty(&self) -> bool
        ensures { result ≡ (length self.now == 0) }
    {
        self.items.is_empty()
    }

    pub fn as_slice(&self) -> &[Watch]
        ensures value { result.now ≡ self.now }
        ensures few { length result.now ≤ 4 }
    {
        self.items.as_slice()
    }

    /// On `NoMemory` the watch is dropped, and the others are unchanged.
    pub fn push(&mut self, watch: Watch) -> Result<(), NoMemory>
        requires { length self.old < 4 }
        ensures ok { OnOk result (self.new ≡ self.old ++ watch ∷ []) }
        ensures err { OnErr result (self.new ≡ self.old) }
    {
        self.items.reserve(1)?;
        self.items.push_reserved(watch);
        Ok(())
    }

    /// The others stay in order.
    pub fn remove(&mut self, index: usize) -> Watch
        requires { index < length self.old }
        ensures value { result ≡ slice_index_or self.old index result }
        ensures items { self.new ≡ remove self.old index }
    {
        self.items.remove(index)
    }

    pub fn into_vec(self) -> Vec<Watch>
        ensures value { result.items ≡ self }
        ensures few { length result.items ≤ 4 }
    {
        self.items
    }
}
