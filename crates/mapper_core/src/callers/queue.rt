//! Replies that wait to be put in order.
ghost use Rattle.std.specs.Prelude.{◌≡◌, [], ◌∷◌, ◌++◌, OnOk, OnErr, IfNone, option_to_list};

use map_items::NoMemory;
use scan_log::Reply;
use std::alloc::Global;
use std::collections::VecDeque;
use std::marker::Model;

/// First in, first out.
#[derive(Drop)]
pub struct Queue {
    items: VecDeque<Reply>,
}

impl Model for Queue {
    ghost use Rattle.std.specs.Prelude.{List};
    ghost use Rattle.scan_log.specs.declared.reply.Reply.{Reply};

    ghost Value = { List Reply };

    ghost view = { λ q. q.items.items };
}

impl Queue {
    pub fn new(alloc: Global) -> Queue
        ensures { result ≡ [] }
    {
        Queue {
            items: VecDeque::new(alloc),
        }
    }

    /// On `NoMemory` the queue stays as it was.
    pub fn put(&mut self, reply: Reply) -> Result<(), NoMemory>
        ensures ok { OnOk result (self.new ≡ self.old ++ reply ∷ []) }
        ensures err { OnErr result (self.new ≡ self.old) }
    {
        match self.items.push_back(reply) {
            Ok(()) => Ok(()),
            Err(_) => Err(NoMemory),
        }
    }

    pub fn take(&mut self) -> Option<Reply>
        ensures first { self.old ≡ option_to_list result ++ self.new }
        ensures none { IfNone result (self.old ≡ []) }
    {
        self.items.pop_front()
    }
}
