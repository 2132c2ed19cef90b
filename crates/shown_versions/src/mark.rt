//! Marks, which tell versions apart.
ghost use Rattle.std.specs.Prelude.{◌≡◌, true, IfSome};

use crate::name::MapName;
use crate::page::Page;
use logbook::{Gain, Offer, Plain, Play, Rule, Seen, Start, Word};
use std::marker::{Model, PhantomData};

const MOST_MARKS: u64 = 1 << 62;

/// The first word of a book is the number of its pages. A page is what a mark is of.
pub struct MarkRule;

impl Rule<Page, u64> for MarkRule {
    ghost use Rattle.std.specs.Prelude.{[]};
    ghost use base.Fml.{ftrue};
    ghost use Rattle.shown_versions.specs.Book.{IsBookOf};

    ghost holds = { λ cells log. IsBookOf cells log };

    ghost first = { [] };

    ghost hinted = { λ n log. Unit {0} };

    ghost shows = { λ log. [] };

    ghost keeps = { λ names log. ftrue };

    ghost moves = { λ ask before after answer. Unit {0} };
}

pub struct NoTrade;

impl Gain<Page, u64> for NoTrade {
    ghost use base.Fml.{ftrue};

    ghost after = { λ names about answer. ftrue };
}

pub struct Append;

impl Play<Page, u64> for Append {
    ghost use Rattle.shown_versions.specs.Book.{Adds};

    ghost then = { Adds };
}

impl Plain<Page, Page, u64> for Append {
    ghost use Rattle.std.specs.Prelude.{None};

    ghost ask = { λ page. page };

    ghost state = { λ page. None };
}

/// All marks of one map. Contracts see their book.
#[derive(Drop)]
pub struct MarkList {
    word: Word<Page, u64, MarkRule>,
    number: u64,
    seen: Seen<Page, u64, MarkRule>,
}

impl Model for MarkList {
    ghost use Rattle.std.specs.Prelude.{◌≡◌, length};
    ghost use Rattle.logbook.specs.Pages.{Book};
    ghost use Rattle.shown_versions.specs.Book.{book_name};

    ghost Value = { Book };

    ghost view = { λ m. m.seen.book };

    ghost invariant = { λ m. (m.word ≡ book_name m.seen.book) × (m.number ≡ length m.seen.log) };
}

impl MarkList {
    pub fn new() -> MarkList {
        let (seen, mut first, _second) = Seen::open(Start::alone(), 0, 0);
        MarkList {
            word: Word::tracked(0, &mut first),
            number: 0,
            seen,
        }
    }
}

/// The number of a version or a detached subtree. Contracts see its page: that version's history, or what the subtree held.
#[derive(Drop)]
pub struct Mark<L: MapName> {
    number: u64,
    seen: Seen<Page, u64, MarkRule>,
    name: PhantomData<L>,
}

impl<L: MapName> Model for Mark<L> {
    ghost use Rattle.std.specs.Prelude.{◌≡◌, length};
    ghost use Rattle.shown_versions.specs.Book.{PageAt, last_of};

    ghost Value = { PageAt };

    ghost view = { λ m. last_of m.seen.log };

    ghost invariant = { λ m. (m.number ≡ length m.seen.log) × (m.seen.book ≡ L.marks) };
}

impl<L: MapName> Mark<L> {
    /// `None` past 2^62 numbers, or where another step came between, which the lock excludes though no clause says so.
    pub fn of(marks: &mut MarkList, page: &Page) -> Option<Mark<L>>
        requires { marks.old ≡ L.marks }
        ensures same { marks.new ≡ marks.old }
        ensures mark { IfSome result (λ m. m ≡ page.now) }
    {
        if marks.number >= MOST_MARKS {
            return None;
        }
        let mut offer: Offer<Page, u64, MarkRule, NoTrade> = marks
            .seen
            .plain::<NoTrade, Page, Append>(page);
        let mut pen = marks.seen.no_pen();
        let number = marks.number;
        let found = marks
            .word
            .compare_exchange::<Append, NoTrade>(
                number,
                number + 1,
                &mut marks.seen,
                &mut offer,
                &mut pen,
            );
        if found != number {
            marks.number = found;
            return None;
        }
        marks.number = number + 1;
        Some(Mark {
            number: number + 1,
            seen: marks.seen.again(),
            name: PhantomData,
        })
    }

    pub fn share(&self) -> Mark<L>
        ensures { result ≡ self.now }
    {
        Mark {
            number: self.number,
            seen: self.seen.again(),
            name: PhantomData,
        }
    }

    /// Whether both have one number, so one page.
    pub fn is_same(&self, other: &Mark<L>) -> bool
        ensures { result ≡ true → self.now ≡ other.now }
    {
        if self.number != other.number {
            return false;
        }
        let mut both = self.seen.again();
        both.learn(&other.seen);
        true
    }
}
