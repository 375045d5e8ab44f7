//! A group: a list of items in pages, each of which other groups may share.
ghost use Rattle.std.specs.Prelude.{◌≡◌, ◌<◌, length, slice_get, slice_set, IfOk, OnOk, OnErr, Some};

use crate::owners::share_all;
use crate::page::{PAGE, Page};
use std::alloc::{AllocError, Global};
use std::marker::Model;
use std::sync::Arc;

/// A list of items in pages, each full but the last. A clone is an equal list, which shares its pages.
#[derive(Drop)]
pub(crate) struct Group<T> {
    pages: Vec<Arc<Page<T>>>,
}

impl<T> Model for Group<T> {
    ghost use Rattle.std.specs.Prelude.{List, map};
    ghost use Rattle.std.specs.Coded.{coded_list};
    ghost use Rattle.std.specs.Arc.{arc_value};
    ghost use Rattle.hd_pages.specs.Parts.{joined, IsFilled};

    ghost Value = { List T };

    ghost coded = { coded_list T.code };

    ghost view = { λ g. joined (map arc_value g.pages.items) };

    ghost invariant = { λ g. IsFilled 1024 (map arc_value g.pages.items) };
}

impl<T: Copy> Group<T> {
    /// The group of the items of a slice.
    pub(crate) fn of_slice(alloc: Global, items: &[T]) -> Result<Group<T>, AllocError>
        ensures { IfOk result (λ g. g ≡ items.now) }
    {
        let mut pages = Vec::with_capacity(alloc, items.len().div_ceil(PAGE).max(1))?;
        let mut rest = items;
        while rest.len() > PAGE {
            let (page, after) = rest.split_at(PAGE);
            pages.push(Arc::new(alloc, Page::of_slice(alloc, page)?)?)?;
            rest = after;
        }
        pages.push(Arc::new(alloc, Page::of_slice(alloc, rest)?)?)?;
        Ok(Group { pages })
    }

    /// The item at a place.
    pub(crate) fn get(&self, i: usize) -> T
        requires { i < length self.now }
        ensures { slice_get self.now i ≡ Some result }
    {
        self.pages[i / PAGE].get(i % PAGE)
    }

    /// Puts an item at a place. Where another group has the page too, it is copied first.
    pub(crate) fn put(&mut self, i: usize, item: T) -> Result<(), AllocError>
        requires { i < length self.old }
        ensures ok { OnOk result (self.new ≡ slice_set self.old i item) }
        ensures err { OnErr result (self.new ≡ self.old) }
    {
        let page = Arc::make_mut(&mut self.pages[i / PAGE])?;
        page.put(i % PAGE, item);
        Ok(())
    }
}

impl<T: Copy> Clone for Group<T> {
    ghost is_clone = { λ g h. h ≡ g };

    fn clone(&self) -> Result<Group<T>, AllocError> {
        let pages = share_all(*self.pages.allocator(), &self.pages)?;
        Ok(Group { pages })
    }
}
