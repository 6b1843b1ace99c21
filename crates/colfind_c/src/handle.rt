//! What C has of a table, a pattern or a search: a pointer to a box, or null.

ghost use Rattle.std.specs.Prelude.{◌≡◌, Option, None, Some};
ghost use Rattle.std.specs.Option.{MatchOption};
ghost use Rattle.colfind_c.specs.declared.owned.Owned.{Owned};
ghost use Rattle.colfind_c.specs.contracts.owned.Owned.{the_row};
ghost use Rattle.colfind_c.specs.Handles.{held};

use crate::loose::Loose;
use crate::owned::Owned;
use std::alloc::Global;
use std::marker::Model;
use std::mem::replace;
use std::ptr::null_mut;

/// What C has: a pointer, which is null where there is nothing.
#[repr(C)]
pub struct Handle {
    at: *mut u8,
    pub ghost value: { Option Owned },
}

impl Model for Handle {
    ghost also_owns = { λ h. held the_row h.at h.value };
}

impl Handle {
    ghost use Rattle.std.specs.Prelude.{◌≡◌, None, Some};
    ghost use Rattle.std.specs.Option.{MatchOption};

    fn empty() -> Handle
        ensures { result.value ≡ None }
    {
        Handle { at: null_mut() }
    }

    fn full(loose: Loose<Owned, Global>) -> Handle
        ensures { result.value ≡ Some loose.value }
    {
        let Loose { at, alloc: _ } = loose;
        Handle { at: at as *mut u8 }
    }

    fn into_loose(self, alloc: Global) -> Option<Loose<Owned, Global>>
        ensures { MatchOption result (self.value ≡ None) (λ l. self.value ≡ Some l.value) }
    {
        let Handle { at } = self;
        if at.is_null() {
            None
        } else {
            Some(Loose {
                at: at as *mut Owned,
                alloc,
            })
        }
    }
}

/// What a handle owns, which is empty from then on.
pub(crate) fn take(alloc: Global, handle: &mut Handle) -> Option<Box<Owned>>
    ensures emptied { handle.new.value ≡ None }
    ensures taken { MatchOption result (handle.old.value ≡ None)
        (λ owned. handle.old.value ≡ Some owned.value) }
{
    let old = replace(handle, Handle::empty());
    match old.into_loose(alloc) {
        Some(loose) => Some(loose.into_box()),
        None => None,
    }
}

/// Gives a handle a value, and lets go of what it had.
pub(crate) fn put(alloc: Global, handle: &mut Handle, owned: Box<Owned>)
    ensures { handle.new.value ≡ Some owned.value }
{
    let old = replace(handle, Handle::full(Loose::of(owned)));
    if let Some(loose) = old.into_loose(alloc) {
        drop(loose.into_box());
    }
}
