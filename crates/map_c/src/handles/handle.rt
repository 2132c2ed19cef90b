//! The handles that C has.
ghost use Rattle.std.specs.Prelude.{◌≡◌, Some, None, is_none, is_some, IfSome, IfNone};

use crate::handles::content::Content;
use crate::handles::parts::Parts;
use crate::handles::raw_content::RawContent;
use std::alloc::Global;
use std::mem;

/// A content, or nothing, which is all zeros.
#[repr(C)]
#[derive(Drop)]
pub struct Handle {
    pub held: RawContent,
    full: bool,
    ghost fits: { full ≡ is_some held.content },
}

impl Handle {
    /// Nothing.
    pub fn none(alloc: Global) -> Handle
        ensures { result.held.content ≡ None }
    {
        Handle {
            held: RawContent::none(alloc),
            full: false,
        }
    }

    /// The handle of this content.
    pub fn of(content: Box<Content>) -> Handle
        ensures { result.held.content ≡ Some content.value }
    {
        Handle {
            held: RawContent::of_parts(Parts::of(content)),
            full: true,
        }
    }

    /// Whether it holds nothing.
    pub fn is_empty(&self) -> bool
        ensures { result ≡ is_none self.now.held.content }
    {
        !self.full
    }

    /// Takes the content out, if there is one, and leaves nothing.
    pub fn take(&mut self, alloc: Global) -> Option<Box<Content>>
        ensures some { IfSome result (λ content. self.old.held.content ≡ Some content.value) }
        ensures none { IfNone result (self.old.held.content ≡ None) }
        ensures left { self.new.held.content ≡ None }
    {
        let handle = mem::replace(self, Handle::none(alloc));
        handle.into_content()
    }

    // The content, if there is one.
    fn into_content(self) -> Option<Box<Content>>
        ensures some { IfSome result (λ content. self.held.content ≡ Some content.value) }
        ensures none { IfNone result (self.held.content ≡ None) }
    {
        let Handle { held, full } = self;
        if full {
            Some(held.into_parts().into_box())
        } else {
            None
        }
    }
}

fn send<T: Send>(_x: T)
where
    T: Drop,
{}

// A handle may be sent to another thread.
fn _sends(handle: Handle) {
    send(handle);
}
