//! A page: a list of items in memory of its own.
ghost use Rattle.std.specs.Prelude.{◌≡◌, ◌<◌, length, slice_get, slice_set, IfOk, Some};

use std::alloc::{AllocError, Global};
use std::marker::Model;

/// How many items a page has at most.
pub(crate) const PAGE: usize = 1024;

/// A list of items in memory of its own. A clone is an equal list.
#[derive(Drop)]
pub(crate) struct Page<T> {
    items: Vec<T>,
}

impl<T> Model for Page<T> {
    ghost use Rattle.std.specs.Prelude.{List};
    ghost use Rattle.std.specs.Coded.{coded_list};

    ghost Value = { List T };

    ghost coded = { coded_list T.code };

    ghost view = { λ p. p.items.items };
}

impl<T: Copy> Page<T> {
    /// The page of the items of a slice.
    pub(crate) fn of_slice(alloc: Global, items: &[T]) -> Result<Page<T>, AllocError>
        ensures { IfOk result (λ p. p ≡ items.now) }
    {
        let items = Vec::from_slice(alloc, items)?;
        Ok(Page { items })
    }

    /// The item at a place.
    pub(crate) fn get(&self, i: usize) -> T
        requires { i < length self.now }
        ensures { slice_get self.now i ≡ Some result }
    {
        self.items[i]
    }

    /// Puts an item at a place.
    pub(crate) fn put(&mut self, i: usize, item: T)
        requires { i < length self.old }
        ensures { self.new ≡ slice_set self.old i item }
    {
        self.items[i] = item;
    }
}

impl<T: Copy> Clone for Page<T> {
    ghost is_clone = { λ p q. q ≡ p };

    fn clone(&self) -> Result<Page<T>, AllocError> {
        Page::of_slice(*self.items.allocator(), &self.items)
    }
}
