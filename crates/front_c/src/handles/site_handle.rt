//! Handles of sites, as C has them.
ghost use Rattle.std.specs.Prelude.{◌≡◌, Option, Some, None, IfSome, IsSome, is_some};
ghost use Rattle.std.specs.Option.{option_copied_mut};
ghost use Rattle.std.specs.Borrow.{LendsIf, sem};
ghost use Rattle.std_heap.specs.declared.Global.{Global as GlobalValue};
ghost use denote.RawPtr.{null_ptr};
ghost use Rattle.front_c.specs.SiteHandleHeld.{Share, share_code, site_held};

use crate::handles::raw_box::RawBox;
use front_core::OpenSite;
use std::alloc::Global;
use std::marker::{Model, Send};
use std::ptr::null_mut;

/// What C sees at the pointer of an open handle: nothing.
#[repr(C)]
pub struct SiteBlock {
    byte: u8,
}

/// A share of a site that C owns, or none: a handle that is not open is of zeros, and an open one
/// is the pointer to its share. It may go to another thread.
///
/// It is no value to be dropped: it ends by [`SiteHandle::close`].
#[repr(C)]
pub struct SiteHandle {
    at: *mut SiteBlock,
    ghost alloc: { GlobalValue },
    ghost value: { Option Share } by { share_code },
}

impl Model for SiteHandle {
    ghost also_owns = { λ handle. site_held handle.at handle.alloc handle.value };
}

unsafe impl Send for SiteHandle {}

impl SiteHandle {
    ghost use Rattle.front_c.specs.inner.Handles.{LendsSite, with_site};
    ghost use Rattle.front_c.specs.SiteHandleHeld.{share_row};
    ghost use Rattle.front_c.specs.contracts.handles.site_handle.SiteHandle.{the_row};

    /// An open handle of this share of a site, or none where memory ends.
    pub(crate) fn new(alloc: Global, share: OpenSite) -> Option<SiteHandle>
        ensures { IfSome result (λ handle. handle.value ≡ Some share) }
    {
        match Box::new(alloc, share) {
            Ok(boxed) => Some(SiteHandle::of_raw_box(RawBox::of(boxed))),
            Err(_) => None,
        }
    }

    /// A handle that is not open.
    pub(crate) fn closed(_alloc: Global) -> SiteHandle
        ensures { (result.value ≡ None) × (result.at ≡ null_ptr) }
    {
        SiteHandle { at: null_mut() }
    }

    /// The share of an open handle, borrowed; none of one that is not open.
    pub(crate) fn open(&mut self) -> Option<&mut OpenSite>
        ensures* lends { sem 𝓛 (LendsIf the_row share_row self.entry result (with_site self.old)
            self.old) }
        ensures value { option_copied_mut result ≡ self.old.value }
    {
        if self.is_open() {
            Some(self.site())
        } else {
            None
        }
    }

    /// Drops the share of a handle, where it is open.
    pub(crate) fn close(mut self, alloc: Global) {
        if self.is_open() {
            drop(self.into_raw_box(alloc).into_box());
        } else {
            self.discard();
        }
    }

    /// Whether the handle is open.
    fn is_open(&mut self) -> bool
        ensures { (result ≡ is_some self.old.value) × (self.new ≡ self.old) }
    {
        !self.at.is_null()
    }

    /// The share of an open handle, borrowed.
    fn site(&mut self) -> &mut OpenSite
        requires { IsSome self.old.value }
        ensures* writes_back { sem 𝓛 (LendsSite self.entry result) }
        ensures value { self.old.value ≡ Some result.now }
    {
        unsafe { &mut *(self.at as *mut OpenSite) }
    }

    /// An open handle of this share.
    fn of_raw_box(share: RawBox<OpenSite, Global>) -> SiteHandle
        ensures { result.value ≡ Some share.value }
    {
        let RawBox { at, alloc: _ } = share;
        SiteHandle {
            at: at as *mut SiteBlock,
        }
    }

    /// The share of an open handle.
    fn into_raw_box(self, alloc: Global) -> RawBox<OpenSite, Global>
        requires { IsSome self.value }
        ensures { self.value ≡ Some result.value }
    {
        let SiteHandle { at } = self;
        RawBox {
            at: at as *mut OpenSite,
            alloc,
        }
    }

    /// Drops a handle that is not open.
    fn discard(self)
        requires { self.value ≡ None }
    {
        let SiteHandle { at: _ } = self;
    }
}
