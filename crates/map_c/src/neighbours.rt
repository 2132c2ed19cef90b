//! Live points that have no other near them, and those that chains of short steps join.
ghost use Rattle.std.specs.Prelude.{◌≡◌, ◌≢◌, IfErr, IfOk, Some, length};
ghost use Rattle.map_c.specs.{Answers.{IsTold}, Neighbours.{AreClusters, AreClustersRefusal, AreLonely, AreLonelyRefusal, c_cluster}, Status.{code, done}};

use crate::balls::shown_if_asked;
use crate::handles::macros::ask;
use crate::handles::writing::{ToC, write_all};
use crate::{Cluster, Content, DONE, Handle, Item, Refusal};
use map_fold::Group;
use neighbour_sets::{clusters, lonely};
use std::alloc::Global;

/// How many were found, and how many of those are listed.
#[derive(Drop)]
struct Listed {
    found: u32,
    count: usize,
}

/// Counts the live points that have no other live one within `r` millimetres, and writes the first `most` of them by number, and
/// how many those are.
#[unsafe(no_mangle)]
pub extern "C" fn corv_map_lonely(
    alloc: Global,
    map: &mut Handle,
    r: u64,
    most: u32,
    found: &mut u32,
    items: &mut [Item],
    count: &mut usize,
) -> i32
    ensures told { IsTold (AreLonely map.old.held.content r most found.new items.new count.new)
        (AreLonelyRefusal map.old.held.content r most (length items.old))
        map.old.held.content map.new.held.content count.new result }
    ensures none { result ≢ done → found.new ≡ 0 }
{
    *found = 0;
    *count = 0;
    let listed = ask!(alloc, map, |content| {
        list_lonely(alloc, &content, r, most, items)
    });
    *found = listed.found;
    *count = listed.count;
    DONE
}

fn list_lonely(
    alloc: Global,
    content: &Content,
    r: u64,
    most: u32,
    items: &mut [Item],
) -> Result<Listed, Refusal>
    ensures found { IfOk result (λ l. AreLonely (Some content.now) r most l.found items.new l.count) }
    ensures refused { IfErr result (λ c. AreLonelyRefusal (Some content.now) r most (length items.old) (code c)) }
{
    let version = shown_if_asked(content, r, most, items.len())?;
    let all = lonely(alloc, version.tree(), r, most)?;
    Ok(Listed {
        found: all.count,
        count: write_all(all.items.as_slice(), items),
    })
}

/// `corv_map_lonely`, on a view.
#[unsafe(no_mangle)]
pub extern "C" fn corv_view_lonely(
    alloc: Global,
    view: &mut Handle,
    r: u64,
    most: u32,
    found: &mut u32,
    items: &mut [Item],
    count: &mut usize,
) -> i32
    ensures told { IsTold (AreLonely view.old.held.content r most found.new items.new count.new)
        (AreLonelyRefusal view.old.held.content r most (length items.old))
        view.old.held.content view.new.held.content count.new result }
    ensures none { result ≢ done → found.new ≡ 0 }
{
    corv_map_lonely(alloc, view, r, most, found, items, count)
}

/// Counts the clusters of live points, by steps of at most `r` millimetres, and writes the first `most` of them by their least
/// numbers, and how many those are.
#[unsafe(no_mangle)]
pub extern "C" fn corv_map_clusters(
    alloc: Global,
    map: &mut Handle,
    r: u64,
    most: u32,
    found: &mut u32,
    groups: &mut [Cluster],
    count: &mut usize,
) -> i32
    ensures told { IsTold (AreClusters map.old.held.content r most found.new groups.new count.new)
        (AreClustersRefusal map.old.held.content r most (length groups.old))
        map.old.held.content map.new.held.content count.new result }
    ensures none { result ≢ done → found.new ≡ 0 }
{
    *found = 0;
    *count = 0;
    let listed = ask!(alloc, map, |content| {
        list_clusters(alloc, &content, r, most, groups)
    });
    *found = listed.found;
    *count = listed.count;
    DONE
}

fn list_clusters(
    alloc: Global,
    content: &Content,
    r: u64,
    most: u32,
    groups: &mut [Cluster],
) -> Result<Listed, Refusal>
    ensures found { IfOk result (λ l. AreClusters (Some content.now) r most l.found groups.new l.count) }
    ensures refused { IfErr result (λ c. AreClustersRefusal (Some content.now) r most (length groups.old) (code c)) }
{
    let version = shown_if_asked(content, r, most, groups.len())?;
    let all = clusters(alloc, version.tree(), r, most)?;
    Ok(Listed {
        found: all.count,
        count: write_all(all.groups.as_slice(), groups),
    })
}

/// `corv_map_clusters`, on a view.
#[unsafe(no_mangle)]
pub extern "C" fn corv_view_clusters(
    alloc: Global,
    view: &mut Handle,
    r: u64,
    most: u32,
    found: &mut u32,
    groups: &mut [Cluster],
    count: &mut usize,
) -> i32
    ensures told { IsTold (AreClusters view.old.held.content r most found.new groups.new count.new)
        (AreClustersRefusal view.old.held.content r most (length groups.old))
        view.old.held.content view.new.held.content count.new result }
    ensures none { result ≢ done → found.new ≡ 0 }
{
    corv_map_clusters(alloc, view, r, most, found, groups, count)
}

impl ToC<Cluster> for Group {
    ghost in_c = { c_cluster };

    fn to_c(&self) -> Cluster {
        Cluster {
            number: self.least,
            points: self.size,
        }
    }
}
