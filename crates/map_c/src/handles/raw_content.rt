//! What crosses to C: a content behind a pointer that doesn't show its type.
ghost use Rattle.std.specs.Prelude.{◌≡◌, true, Option, Some, None, is_some};
ghost use Rattle.map_c.specs.RawContent.{Contents, held_owns, held_coded};

use crate::handles::content::Content;
use crate::handles::parts::Parts;
use std::alloc::Global;
use std::marker::Model;

/// A content, or nothing.
#[repr(C)]
#[derive(Drop)]
pub struct RawContent {
    at: *mut u8,
    alloc: Global,
    pub ghost content: { Option Contents } by { held_coded },
}

impl Model for RawContent {
    ghost also_owns = { λ h. held_owns h.alloc h.at h.content };
}

impl RawContent {
    /// Nothing.
    pub fn none(alloc: Global) -> RawContent
        ensures { result.content ≡ None }
    {
        RawContent {
            at: std::ptr::null_mut(),
            alloc,
        }
    }

    /// The content of these parts.
    pub fn of_parts(parts: Parts<Content, Global>) -> RawContent
        ensures { result.content ≡ Some parts.value }
    {
        let Parts { ptr, alloc } = parts;
        RawContent {
            at: ptr as *mut u8,
            alloc,
        }
    }

    /// The parts again.
    pub fn into_parts(self) -> Parts<Content, Global>
        requires { is_some self.content ≡ true }
        ensures { self.content ≡ Some result.value }
    {
        let RawContent { at, alloc } = self;
        Parts {
            ptr: at as *mut Content,
            alloc,
        }
    }
}

unsafe impl Send for RawContent {}
