//! All passes meet in one turn of the lock.
ghost use Rattle.std.specs.Prelude.{◌≡◌, ◌+◌, length};
ghost use Rattle.shown_versions.specs.Marks.{callers_of, made_by, IsDistinct, AllEnded, AllSeen, AllMade, AllGrown, AllMet, AllOf};

use crate::locked::Locked;
use crate::pass::Pass;
use shown_versions::MapName;
use std::sync::Wait;
use std::sync::ledger::{Book, Share};

/// All passes see the whole history. Their updates are as many as the book counts, so each has made exactly its caller's.
pub fn meet<L: MapName, R: Wait>(rt: &R, locked: &mut Locked<L>, passes: &mut [Pass<L>])
    requires all { length passes.old ≡ L.callers }
    requires parts { L.callers ≡ L.parts }
    requires distinct { IsDistinct (callers_of passes.old) }
    ensures same { locked.new ≡ locked.old }
    ensures grown { AllGrown passes.old passes.new }
    ensures met { AllMet locked.old.state.history passes.new }
    ensures none_else { AllOf (callers_of passes.new) locked.old.state.history }
{
    give_all(rt, locked, passes);
    audit_from(&mut locked.book, passes, &mut locked.audit_share);
}

/// For passes that aren't used any more.
pub fn meet_last<L: MapName, R: Wait>(rt: &R, locked: &mut Locked<L>, passes: &mut [Pass<L>])
    requires all { length passes.old ≡ L.callers }
    requires parts { L.callers ≡ L.parts }
    requires distinct { IsDistinct (callers_of passes.old) }
    ensures same { locked.new ≡ locked.old }
    ensures ended { AllEnded locked.old.state.history passes.old }
{
    meet(rt, locked, passes);
}

fn give_all<L: MapName, R: Wait>(rt: &R, locked: &mut Locked<L>, passes: &mut [Pass<L>])
    ensures same { locked.new ≡ locked.old }
    ensures seen { AllSeen locked.old.state.history passes.new }
    ensures made { AllMade locked.old.state.history passes.new }
    ensures grown { AllGrown passes.old passes.new }
{
    if let Some((first, rest)) = passes.split_first_mut() {
        give_all(rt, locked, rest);
        locked.give(rt, first);
    }
}

// Each pass lends its part of the share, and gets it back.
fn audit_from<L: MapName>(book: &mut Book<L>, passes: &mut [Pass<L>], all: &mut Share<L>)
    requires all { all.old.parts + length passes.old ≡ L.callers }
    requires parts { L.callers ≡ L.parts }
    requires backed { all.old.parts ≡ 0 → all.old.amount ≡ 0 }
    ensures passes { passes.new ≡ passes.old }
    ensures book { book.new.total ≡ book.old.total }
    ensures lent { all.new.parts ≡ all.old.parts }
    ensures back { all.new.amount ≡ all.old.amount }
    ensures total { all.old.amount + made_by passes.old ≡ book.old.total }
{
    match passes.split_first_mut() {
        None => book.audit(all),
        Some((first, rest)) => {
            let count = first.marks.len() as u64;
            first.share.give(all, 1, count);
            audit_from(book, rest, all);
            all.give(&mut first.share, 1, count);
        }
    }
}
