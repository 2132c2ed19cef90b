//! Built subtrees, swapped in.
ghost use Rattle.std.specs.Prelude.{◌≡◌, ◌≢◌, ◌==◌, ◌⊎◌, IfErr, IfOk, None, OnErr, OnOk, Some, not};
ghost use Rattle.map_c.specs.{Swapping.{IsBehind, IsLeft, IsStaleAs, IsSwapRefusal, IsSwapped}, Status.{behind, code, done}};
ghost use Rattle.map_items.specs.Ops.{Fit};
ghost use Rattle.kd_tree.specs.Contents.{contents};
ghost use Rattle.rebuild_core.specs.{Known.{IsStale}, Detach.{IsLogAfter}};
ghost use Rattle.map_c.specs.declared.handles.refusal.Refusal.TheVariants as refused_as;

use crate::{BuiltSubtree, Content, DONE, Handle, Refusal};
use map_fold::Ops;
use rebuild_core::{Built, LogAsk, MapState, SwapFault, SwapLeft};
use std::alloc::Global;
use std::mem;

/// Replays on the built subtree the operations logged since, swaps it in, and leaves its handle empty. On `behind` the handle keeps
/// it, with those operations pending.
#[unsafe(no_mangle)]
pub extern "C" fn corv_map_swap(
    alloc: Global,
    map: &mut Handle,
    built: &mut Handle,
    force: u32,
) -> i32
    ensures swapped { result ≡ done → IsSwapped (not (force == 0)) map.old.held.content map.new.held.content built.old.held.content }
    ensures empty { result ≡ done → built.new.held.content ≡ None }
    ensures refused { result ≢ done → IsSwapRefusal (not (force == 0)) map.old.held.content built.old.held.content result }
    ensures same { result ≢ done → map.new.held.content ≡ map.old.held.content }
    ensures left { result ≡ behind → IsLeft map.old.held.content built.old.held.content built.new.held.content }
    ensures built_same { result ≢ done → result ≢ behind → built.new.held.content ≡ built.old.held.content }
{
    let Some(mut content) = map.take(alloc) else {
        return Refusal::Empty.status();
    };
    let Some(mut value) = built.take(alloc) else {
        *map = Handle::of(content);
        return Refusal::Empty.status();
    };
    let swapped = swap(alloc, &mut content, &mut value, force != 0);
    *map = Handle::of(content);
    match swapped {
        Ok(()) => DONE,
        Err(refusal) => {
            *built = Handle::of(value);
            refusal.status()
        }
    }
}

fn swap(
    alloc: Global,
    content: &mut Content,
    value: &mut Content,
    force: bool,
) -> Result<(), Refusal>
    ensures swapped { OnOk result (IsSwapped force (Some content.old) (Some content.new) (Some value.old)) }
    ensures refused { IfErr result (λ r. IsSwapRefusal force (Some content.old) (Some value.old) (code r)) }
    ensures same { OnErr result (content.new ≡ content.old) }
    ensures left { IfErr result (λ r. r ≡ refused_as.Behind → IsLeft (Some content.old) (Some value.old) (Some value.new)) }
    ensures value_same { IfErr result (λ r. (r ≡ refused_as.Behind → ⊥) → value.new ≡ value.old) }
{
    let Content::Map(kept) = content else {
        return Err(Refusal::Empty);
    };
    match mem::replace(value, Content::Nothing) {
        Content::Built(BuiltSubtree { built, left, large }) => {
            match kept.state.swap_uncounted(alloc, built, force) {
                Ok(()) => Ok(()),
                Err(SwapLeft { built, fault }) => match missed(alloc, &kept.state, &built, fault) {
                    Ok(left) => {
                        *value = Content::Built(BuiltSubtree { built, left, large });
                        Err(Refusal::Behind)
                    }
                    Err(refusal) => {
                        *value = Content::Built(BuiltSubtree { built, left, large });
                        Err(refusal)
                    }
                },
            }
        }
        other => {
            *value = other;
            Err(Refusal::Empty)
        }
    }
}

// The operations pending, where the value is behind; else why it is refused.
fn missed(alloc: Global, state: &MapState, built: &Built, fault: SwapFault) -> Result<Ops, Refusal>
    ensures missed { IfOk result (IsLogAfter built.now state.now.state) }
    ensures fit { IfOk result (Fit (contents built.now.tree)) }
    ensures behind { OnOk result (IsBehind fault) }
    ensures refused { IfErr result (λ r. ((r ≡ refused_as.Stale) × (IsStaleAs fault ⊎ IsStale built.now state.now.state.parts)) ⊎ (r ≡ refused_as.NoMemory)) }
{
    match fault {
        SwapFault::Stale { ticket: _ } => Err(Refusal::Stale),
        SwapFault::NoMemory => Err(Refusal::NoMemory),
        SwapFault::Behind { left: _ } => match state.log_after(alloc, built) {
            Ok(ops) => Ok(ops),
            Err(LogAsk::Stale { ticket: _ }) => Err(Refusal::Stale),
            Err(LogAsk::NoMemory) => Err(Refusal::NoMemory),
        },
    }
}
