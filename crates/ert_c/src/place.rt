//! The place of a boxed value in the caller's memory.
ghost use Rattle.std.specs.Prelude.{Option};
ghost use Rattle.std.specs.Coded.{coded_option};

use std::alloc::Global;
use std::marker::Model;
use std::ptr;

/// Where a boxed value lies, if there is one.
///
/// It can't be dropped, so a value can't be forgotten.
#[repr(C)]
pub struct Place<T> {
    at: *mut T,
    pub(crate) ghost value: { Option T } by { coded_option T.code },
}

impl<T> Model for Place<T> {
    ghost use Rattle.ert_c.specs.Places.{held};

    ghost also_owns = { λ h. held T.row h.at h.value };
}

impl<T> Place<T> {
    ghost use Rattle.std.specs.Prelude.{◌≡◌, true, false, None, Some};
    ghost use Rattle.std.specs.Borrow.{sem, Lends};
    ghost use Rattle.ert_c.specs.Places.{is_there};
    ghost use Rattle.ert_c.specs.contracts.place.Place as place;

    /// Keeps a box, where there is none.
    pub(crate) fn fill(&mut self, value: Box<T, Global>)
    where
        T: Drop,
        requires { is_there self.old.value ≡ false }
        ensures { self.new.value ≡ Some value.value }
    {
        self.at = Box::into_raw(value);
    }

    /// Gives the box out.
    pub(crate) fn empty(&mut self, alloc: Global) -> Box<T, Global>
        requires { is_there self.old.value ≡ true }
        ensures none { self.new.value ≡ None }
        ensures value { self.old.value ≡ Some result.value }
    {
        let at = self.at;
        self.at = ptr::null_mut();
        unsafe { Box::from_raw(alloc, at) }
    }

    /// The value, for the time of a call.
    pub(crate) fn lend(&mut self) -> &mut T
        requires { is_there self.old.value ≡ true }
        ensures* writes_back { sem 𝓛 (Lends (place.the_row T.row) T.row self.entry result (λ w. record self.entry.now { value = Some w })) }
        ensures value { self.old.value ≡ Some result.now }
    {
        unsafe { &mut *self.at.cast::<T>() }
    }
}
