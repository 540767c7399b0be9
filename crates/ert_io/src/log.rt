//! What a stream has moved so far, which only proofs read. It takes no memory, and its methods do nothing at run time.
ghost use Rattle.std.specs.Prelude.{List, Bool};
ghost use Rattle.std.specs.Borrow.{ftrue};

use std::fmt::{self, Debug, Formatter, Write};
use std::marker::{Model, PhantomData};

/// All items that were moved so far, and whether the last call moved none.
#[derive(Drop)]
pub(crate) struct Log<T> {
    of: PhantomData<T>,
    pub ghost items: { List T },
    pub ghost ended: { Bool },
}

const _: () = prove!(size_of::<Log<u8>>() == 0);

impl<T> Model for Log<T> {
    ghost also_owns = { λ _. ftrue };
}

impl<T> Log<T> {
    ghost use Rattle.std.specs.Prelude.{◌≡◌, [], ◌++◌, false, length, nat_eq};

    /// Nothing was moved yet.
    #[inline(always)]
    pub(crate) fn new() -> Log<T>
        ensures { (result.items ≡ []) × (result.ended ≡ false) }
    {
        Log { of: PhantomData }
    }

    /// With these items, which one more call has moved.
    #[inline(always)]
    pub(crate) fn and(&self, _items: &[T]) -> Log<T>
        ensures { (result.items ≡ self.now.items ++ _items.now) × (result.ended ≡ nat_eq (length _items.now) 0) }
    {
        Log { of: PhantomData }
    }
}

impl<T> Debug for Log<T> {
    fn fmt<W: Write>(&self, f: &mut Formatter<W>) -> fmt::Result {
        f.write_str("Log")
    }
}
