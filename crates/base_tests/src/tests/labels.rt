//! Counts of labels, by hand.
use crate::tests::assertions::same;
use Label::{Dropped, Live, Suspended};
use node_labels::{Counts, Label, Tag};

#[test]
fn each_of_the_nine_actions_moves_the_counts(rt: HostRuntime) {
    for (live, suspended, after) in [
        (Live, Live, (21, 0, 300)),
        (Live, Suspended, (1, 20, 300)),
        (Live, Dropped, (1, 0, 320)),
        (Suspended, Live, (20, 1, 300)),
        (Suspended, Suspended, (0, 21, 300)),
        (Suspended, Dropped, (0, 1, 320)),
        (Dropped, Live, (20, 0, 301)),
        (Dropped, Suspended, (0, 20, 301)),
        (Dropped, Dropped, (0, 0, 321)),
    ] {
        let counts = moved(Tag { live, suspended });
        same(&rt, "the counts", numbers(counts), after);
    }
}

// What the action makes of 1 live, 20 suspended and 300 dropped ones.
fn moved(tag: Tag) -> Counts {
    let before = Counts {
        live: 1,
        suspended: 20,
        dropped: 300,
    };
    before.apply(tag)
}

fn numbers(counts: Counts) -> (u32, u32, u32) {
    (counts.live, counts.suspended, counts.dropped)
}

#[test]
fn counts_add_up(rt: HostRuntime) {
    let one = Counts {
        live: 1,
        suspended: 2,
        dropped: 3,
    };
    let other = Counts {
        live: 10,
        suspended: 20,
        dropped: 30,
    };
    let both = one.add(other);
    same(&rt, "both", numbers(both), (11, 22, 33));
    let alone = one.add(Counts::default());
    same(&rt, "with nothing", alone, one);
}
