//! The nearest points to a place, and to each of several, written where C wants them.
ghost use Rattle.std.specs.Prelude.{◌≡◌, ◌+◌, ◌*◌, ◌<◌, ◌≤◌, ◌⊎◌, ◌≤ℤ◌, ◌++◌, All, Any, IfErr, IfOk, OnOk, Some, None, false, length, pos, take, true};
ghost use Rattle.std.specs.Option.{ForSome};
ghost use Rattle.kd_search.specs.Query.{IsQuery};
ghost use Rattle.map_c.specs.Answers.{IsNearest, IsNearestEach, IsNearestEachRefusal, IsNearestRefusal, IsSearch, all_hits, hit_counts, nearest_hits, within_at};
ghost use Rattle.map_c.specs.{Forms.{IsRightPlace}, Status.{code, no_memory, out_of_range}};

use crate::searched::Searched;
use crate::{Content, Hit, Place, Refusal, read_place};
use map_fold::{MAX_FOUND, MAX_WITHIN};
use std::alloc::Global;

/// The k nearest to a place of what is searched in the content, from the front of the hits on, and how many they are.
pub fn search<S: Searched>(
    alloc: Global,
    content: &Content,
    place: &Place,
    k: u32,
    within: i64,
    hits: &mut [Hit],
) -> Result<usize, Refusal>
    ensures found { IfOk result (IsNearest (S.held_in (Some content.now)) place.now k within hits.new) }
    ensures refused { IfErr result (λ r. IsNearestRefusal (S.held_in (Some content.now)) place.now k within (length hits.old) (code r)) }
{
    let searched = S::in_content(content)?;
    if !is_search(k, within) {
        return Err(Refusal::BadNumber);
    }
    if hits.len() < k as usize {
        return Err(Refusal::NoRoom);
    }
    add_nearest(alloc, searched, place, k, reach(within), 0, hits)
}

/// Those of each place in turn, one behind the other, and how many each place has.
pub fn search_each<S: Searched>(
    alloc: Global,
    content: &Content,
    places: &[Place],
    k: u32,
    within: i64,
    hits: &mut [Hit],
    counts: &mut [u32],
) -> Result<usize, Refusal>
    ensures found { IfOk result (IsNearestEach (S.held_in (Some content.now)) places.now k within hits.new counts.new) }
    ensures refused { IfErr result (λ r. IsNearestEachRefusal (S.held_in (Some content.now)) places.now k within (length hits.old) (length counts.old) (code r)) }
{
    let searched = S::in_content(content)?;
    if !is_search(k, within) {
        return Err(Refusal::BadNumber);
    }
    if !has_room(places.len(), k, hits.len(), counts.len()) {
        return Err(Refusal::NoRoom);
    }
    add_each(alloc, searched, places, k, reach(within), hits, counts)
}

fn add_each<S: Searched>(
    alloc: Global,
    searched: &S,
    places: &[Place],
    k: u32,
    within: Option<u64>,
    hits: &mut [Hit],
    counts: &mut [u32],
) -> Result<usize, Refusal>
    requires query { IsQuery k within }
    requires room { length places.now * k ≤ length hits.old }
    requires counts_room { length places.now ≤ length counts.old }
    ensures list { IfOk result (λ n. take n hits.new ≡ all_hits (S.items searched.now) k within places.now) }
    ensures count { IfOk result (λ n. n ≡ length (all_hits (S.items searched.now) k within places.now)) }
    ensures each { OnOk result (take (length places.now) counts.new ≡ hit_counts (S.items searched.now) k within places.now) }
    ensures range { OnOk result (All IsRightPlace places.now) }
    ensures length { length hits.new ≡ length hits.old }
    ensures counts_length { length counts.new ≡ length counts.old }
    ensures refused { IfErr result (λ r. ((code r ≡ out_of_range) × Any (λ p. IsRightPlace p → ⊥) places.now) ⊎ ((code r ≡ no_memory) × (16 < k))) }
{
    let mut at = 0;
    for i in 0..places.len() {
        let next = add_nearest(alloc, searched, &places[i], k, within, at, hits)?;
        counts[i] = (next - at) as u32;
        at = next;
    }
    Ok(at)
}

// Writes the hits of one place from here on, and returns where they end.
fn add_nearest<S: Searched>(
    alloc: Global,
    searched: &S,
    place: &Place,
    k: u32,
    within: Option<u64>,
    at: usize,
    hits: &mut [Hit],
) -> Result<usize, Refusal>
    requires query { IsQuery k within }
    requires room { at + k ≤ length hits.old }
    ensures list { IfOk result (λ n. take n hits.new ≡ take at hits.old ++ nearest_hits (S.items searched.now) k within place.now) }
    ensures count { IfOk result (λ n. n ≡ at + length (nearest_hits (S.items searched.now) k within place.now)) }
    ensures few { IfOk result (λ n. n ≤ at + k) }
    ensures range { OnOk result (IsRightPlace place.now) }
    ensures length { length hits.new ≡ length hits.old }
    ensures refused { IfErr result (λ r. ((code r ≡ out_of_range) × (IsRightPlace place.now → ⊥)) ⊎ ((code r ≡ no_memory) × (16 < k))) }
{
    let point = read_place(place)?;
    let end = searched.write_nearest(alloc, k, &point, within, at, hits)?;
    Ok(end)
}

// Whether the hits of so many places fit, and their counts.
fn has_room(places: usize, k: u32, room: usize, counts_room: usize) -> bool
    requires { 1 ≤ k }
    ensures yes { result ≡ true → places * k ≤ room }
    ensures yes_counts { result ≡ true → places ≤ counts_room }
    ensures no { result ≡ false → (counts_room < places) ⊎ (room < places * k) }
{
    places <= counts_room && places <= room / k as usize
}

fn is_search(k: u32, within: i64) -> bool
    ensures yes { result ≡ true → IsSearch k within }
    ensures no { result ≡ false → IsSearch k within → ⊥ }
{
    1 <= k && k <= MAX_FOUND && within <= MAX_WITHIN as i64
}

// The greatest distance, if there is one.
fn reach(within: i64) -> Option<u64>
    requires { within ≤ℤ pos MAX_WITHIN }
    ensures value { result ≡ within_at within }
    ensures bound { ForSome result (λ r. r ≤ MAX_WITHIN) }
{
    if within < 0 {
        None
    } else {
        Some(within as u64)
    }
}
