//! What a handle shows: its map as it is now, or its view; and the frozen index that it holds.
ghost use Rattle.std.specs.Prelude.{◌≡◌, IfErr, IfOk, None, Some};
ghost use Rattle.map_c.specs.{Answers.{AreTotals, IsTotalsRefusal, shown_in}, Frozen.{frozen_in}, Status.{code}};
ghost use Rattle.map_c.specs.declared.handles.refusal.Refusal.TheVariants.{Empty};

use crate::handles::content::{Content, Index};
use crate::handles::forms::Totals;
use crate::handles::refusal::Refusal;
use rebuild_core::Version;
use std::sync::Arc;

/// The version that is shown; `Empty`, if none is.
pub fn shown(content: &Content) -> Result<&Arc<Version>, Refusal>
    ensures shown { IfOk result (λ v. shown_in (Some content.now) ≡ Some v.now.value) }
    ensures refused { IfErr result (λ r. (r ≡ Empty) × (shown_in (Some content.now) ≡ None)) }
{
    match content {
        Content::Map(kept) => {
            let _lawful = kept.state.history();
            Ok(kept.state.version())
        }
        Content::View(seen) => Ok(&seen.version),
        Content::Job(_) | Content::Built(_) | Content::Frozen(_) | Content::Nothing => {
            Err(Refusal::Empty)
        }
    }
}

/// The frozen index that it holds; `Empty`, if it holds none.
pub fn frozen_index(content: &Content) -> Result<&Index, Refusal>
    ensures frozen { IfOk result (λ i. frozen_in (Some content.now) ≡ Some i.now) }
    ensures refused { IfErr result (λ r. (r ≡ Empty) × (frozen_in (Some content.now) ≡ None)) }
{
    match content {
        Content::Frozen(index) => Ok(index),
        Content::Map(_)
        | Content::View(_)
        | Content::Job(_)
        | Content::Built(_)
        | Content::Nothing => Err(Refusal::Empty),
    }
}

/// How much there is of what is shown.
pub fn totals_of(content: &Content) -> Result<Totals, Refusal>
    ensures totals { IfOk result (AreTotals (Some content.now)) }
    ensures refused { IfErr result (λ r. IsTotalsRefusal (Some content.now) (code r)) }
{
    let version = shown(content)?;
    let counts = version.counts();
    Ok(Totals {
        updates: version.len(),
        points: version.next(),
        live: counts.live,
        suspended: counts.suspended,
    })
}
