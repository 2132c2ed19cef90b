ghost use Rattle.std.specs.Prelude.{◌≡◌, ◌-◌, ◌<◌, ◌≤◌, true, ◌++◌, length, is_some};
ghost use Rattle.rebuild_core.specs.{Lawful.{IsLawful}, StateView.{AreMade, IsNextOf}, Steps.{entered}};
ghost use Rattle.rebuild_parts.specs.History.{listed};

use crate::{MapState, Planned};
use map_items::Entry;
use rebuild_parts::relog_all;
use std::mem;

impl MapState {
    /// Stores what was planned, without memory, and returns how many entries the history has then.
    pub fn enter_step(&mut self, planned: Planned) -> u64
        requires lawful { IsLawful (entered planned self.old.state) }
        requires room { is_some planned.entry ≡ true → 1 ≤ self.old.spare }
        ensures state { self.new.state ≡ entered planned self.old.state }
        ensures len { result ≡ length self.new.state.history }
        ensures spare { self.new.spare ≡ self.old.spare - length (listed planned.entry) }
    {
        let (tree, next, version, entry, logs) = planned.parts();
        list(&mut self.history, &mut self.made, entry);
        relog_all(&mut self.parts, logs);
        self.tree = tree;
        self.next = next;
        let former = mem::replace(&mut self.version, version);
        self.former = Some(former);
        self.history.len() as u64
    }
}

fn list(history: &mut Vec<Entry>, made: &mut [u32; 8], entry: Option<Entry>)
    requires next { IsNextOf history.old.items entry }
    requires made { AreMade made.old history.old.items }
    requires room { is_some entry ≡ true → length history.old.items < history.old.cap }
    ensures items { history.new.items ≡ history.old.items ++ listed entry }
    ensures made { AreMade made.new history.new.items }
    ensures cap { history.new.cap ≡ history.old.cap }
{
    let Some(entry) = entry else {
        return;
    };
    made[entry.caller as usize - 1] += 1;
    history.push_reserved(entry);
}
