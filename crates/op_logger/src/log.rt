//! The logger.
ghost use Rattle.std.specs.Prelude.{◌≡◌, ◌+◌, ◌-◌, ◌<◌, ◌≤◌, [], true, ◌∷◌, ◌++◌, length, take, drop, IfOk, OnOk, OnErr, IsErrOf, ◌↔◌};
ghost use Rattle.op_logger.specs.declared.fault.PushFault.TheVariants.{Full};

use crate::PushFault;
use crate::block::{Block, add_after, begin_with, cut_blocks, try_clone_all};
use map_items::{NoMemory, Op};
use std::alloc::{AllocError, Global};
use std::marker::Model;
use std::mem;

/// The most operations that a list holds.
pub const MAX_LOGGED: u32 = 65_536;

// A tail of this many operations becomes a block.
const FULL: usize = 256;

/// A list of at most 65,536 operations. It keeps its allocator, and grows at its end. A copy shares all but the newest
/// few hundred of them.
#[derive(Debug, Drop)]
pub struct OpLog {
    alloc: Global,
    blocks: Vec<Block>,
    // How many operations the blocks have together.
    front: u32,
    // Those after them, which no other list has.
    tail: Vec<Op>,
}

impl Model for OpLog {
    ghost use Rattle.std.specs.Prelude.{List, ◌≡◌, ◌+◌, ◌≤◌, ◌++◌, length};
    ghost use Rattle.op_logger.specs.{Blocks.{ops_in}, declared.log.TheConstants.{MAX_LOGGED}};
    ghost use Rattle.map_items.specs.declared.op.Op.{Op};

    ghost Value = { List Op };

    ghost view = { λ l. ops_in l.blocks.items ++ l.tail.items };

    ghost invariant = { λ l. (l.front ≡ length (ops_in l.blocks.items)) × (l.front + length l.tail.items ≤ MAX_LOGGED) };
}

impl OpLog {
    /// Takes no memory.
    pub fn new(alloc: Global) -> OpLog
        ensures { result ≡ [] }
    {
        OpLog {
            alloc,
            blocks: Vec::new(alloc),
            front: 0,
            tail: Vec::new(alloc),
        }
    }

    pub fn len(&self) -> u32
        ensures value { result ≡ length self.now }
        ensures few { result ≤ MAX_LOGGED }
    {
        self.front + self.tail.len() as u32
    }

    /// How many more it may hold.
    pub fn room(&self) -> u32
        ensures value { result ≡ MAX_LOGGED - length self.now }
        ensures sum { result + length self.now ≡ MAX_LOGGED }
    {
        MAX_LOGGED - self.len()
    }

    /// Those after the first n, in order, in a list of their own. Costs a step for each of them, and for each few
    /// hundred before.
    pub fn after(&self, alloc: Global, n: u32) -> Result<Vec<Op>, NoMemory>
        requires { n ≤ length self.now }
        ensures { IfOk result (λ v. v.items ≡ drop n self.now) }
    {
        let len = self.len();
        let mut ops = Vec::with_capacity(alloc, (len - n) as usize)?;
        let (blocks, tail) = (self.blocks.as_slice(), self.tail.as_slice());
        add_after(blocks, tail, n as usize, &mut ops)?;
        Ok(ops)
    }

    /// Whether these are the first ones. Costs a step for each of them.
    pub fn begins_with(&self, ops: &[Op]) -> bool
        ensures { result ≡ true ↔ (take (length ops.now) self.now ≡ ops.now) }
    {
        begin_with(self.blocks.as_slice(), self.tail.as_slice(), ops)
    }

    /// An equal list. Costs a step for each few hundred operations, and for each of the newest ones.
    pub fn copy(&self, alloc: Global) -> Result<OpLog, NoMemory>
        ensures { IfOk result (λ log. log ≡ self.now) }
    {
        let blocks = try_clone_all(alloc, self.blocks.as_slice())?;
        let tail = Vec::from_slice(alloc, self.tail.as_slice())?;
        Ok(OpLog {
            alloc,
            blocks,
            front: self.front,
            tail,
        })
    }

    /// Puts one more at the end. It is refused with `Full` where `MAX_LOGGED` are held. On an error the list is
    /// unchanged.
    pub fn push(&mut self, op: Op) -> Result<(), PushFault>
        ensures ok { OnOk result (self.new ≡ self.old ++ op ∷ []) }
        ensures err { OnErr result (self.new ≡ self.old) }
        ensures full { IsErrOf result Full ↔ (length self.old ≡ MAX_LOGGED) }
    {
        if self.len() == MAX_LOGGED {
            return Err(PushFault::Full);
        }
        if FULL <= self.tail.len() {
            self.close_block()?;
        }
        self.tail.reserve(1)?;
        // Made anew, since the borrow checker can't yet carry an operation that was passed in.
        let op = match op {
            Op::Mark { choice, tag } => Op::Mark { choice, tag },
            Op::Put { number, point } => Op::Put { number, point },
        };
        put(&mut self.tail, op);
        Ok(())
    }

    #[tactic(auto, using(crate::proofs::Blocks::ops_in_pushed))]
    fn close_block(&mut self) -> Result<(), AllocError>
        ensures { self.new ≡ self.old }
    {
        self.blocks.reserve(1)?;
        let tail = mem::replace(&mut self.tail, Vec::new(self.alloc));
        match Block::new(self.alloc, tail) {
            Ok(block) => {
                self.front += block.len();
                self.blocks.push_reserved(block);
                Ok(())
            }
            Err(tail) => {
                self.tail = tail;
                Err(AllocError)
            }
        }
    }

    /// Keeps the first n.
    #[tactic(auto, using(crate::proofs::Blocks::take_past, crate::proofs::Blocks::take_within))]
    pub fn cut(&mut self, n: u32)
        requires { n ≤ length self.old }
        ensures { self.new ≡ take n self.old }
    {
        if self.front <= n {
            self.tail.truncate((n - self.front) as usize);
            return;
        }
        self.tail.clear();
        cut_blocks(&mut self.blocks, self.front, n);
        self.front = n;
    }
}

// Of items of any kind: what holds of an operation would have to be carried past the call.
fn put<T>(items: &mut Vec<T>, item: T)
    requires { length items.old.items < items.old.cap }
    ensures { items.new.items ≡ items.old.items ++ item ∷ [] }
{
    items.push_reserved(item);
}
