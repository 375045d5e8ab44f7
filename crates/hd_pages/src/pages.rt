//! `Pages`: a list of items in groups of pages.
ghost use Rattle.std.specs.Prelude.{◌≡◌, ◌+◌, ◌*◌, ◌/◌, ◌^◌, ◌<◌, ◌++◌, length, drop, slice_get, slice_set, IfOk, OnOk, OnErr, Some};

use crate::group::Group;
use crate::owners::share_all;
use crate::page::PAGE;
use hd_terms::NoMemory;
use std::alloc::Global;
use std::marker::Model;
use std::sync::Arc;

/// How many items a group has at most. Behind a list of a multiple of this length another list is put with no copy of an item.
pub const GROUP: usize = 256 * PAGE;

/// A list of items kept in pages of 1,024, which versions of the list share. No version changes another.
#[derive(Drop)]
pub struct Pages<T> {
    groups: Vec<Arc<Group<T>>>,
    len: u32,
}

impl<T> Model for Pages<T> {
    ghost use Rattle.std.specs.Prelude.{List, map};
    ghost use Rattle.std.specs.Coded.{coded_list};
    ghost use Rattle.std.specs.Arc.{arc_value};
    ghost use Rattle.hd_pages.specs.Parts.{joined, HasLength};

    ghost Value = { List T };

    ghost coded = { coded_list T.code };

    ghost view = { λ p. joined (map arc_value p.groups.items) };

    ghost invariant = { λ p. HasLength 262144 p.len (map arc_value p.groups.items) };
}

impl<T: Copy> Pages<T> {
    /// The list of the items of a `Vec`, which are moved group by group, the last one first. What the `Vec` has left is given back
    /// to the system on the way, so only the items of one group are in memory twice.
    ///
    /// # Errors
    ///
    /// Memory ran out.
    pub fn of_vec(alloc: Global, items: Vec<T>) -> Result<Pages<T>, NoMemory>
        requires { length items.items < 2 ^ 32 }
        ensures { IfOk result (λ p. p ≡ items.items) }
    {
        let len = items.len() as u32;
        let mut groups = Vec::with_capacity(alloc, items.len() / GROUP + 1)?;
        let mut rest = items;
        while rest.len() > GROUP {
            let start = (rest.len() - 1) / GROUP * GROUP;
            let (_, last) = rest.split_at(start);
            groups.push(Arc::new(alloc, Group::of_slice(alloc, last)?)?)?;
            rest.truncate(start);
            rest.shrink_to_fit();
        }
        groups.push(Arc::new(alloc, Group::of_slice(alloc, &rest)?)?)?;
        groups.reverse();
        Ok(Pages { groups, len })
    }

    /// Copies the items from a place on behind those of a `Vec`.
    fn copy_from(&self, start: u32, items: &mut Vec<T>) -> Result<(), NoMemory>
        ensures { OnOk result (items.new.items ≡ items.old.items ++ drop start self.now) }
    {
        for i in start..self.len {
            items.push(self.get(i))?;
        }
        Ok(())
    }

    /// Another list with what this one has in a group that is not full put before it. Nothing is copied where all groups are
    /// full.
    fn with_rest_before(&self, alloc: Global, other: Pages<T>) -> Result<Pages<T>, NoMemory>
        requires { length self.now + length other < 2 ^ 32 }
        ensures { IfOk result (λ p. p ≡ drop (length self.now / 262144 * 262144) self.now ++ other) }
    {
        let start = self.len / GROUP as u32 * GROUP as u32;
        if start == self.len {
            return Ok(other);
        }
        let count = (self.len - start) as usize + other.len as usize;
        let mut items = Vec::with_capacity(alloc, count)?;
        self.copy_from(start, &mut items)?;
        other.copy_from(0, &mut items)?;
        Pages::of_vec(alloc, items)
    }

    /// This list and another behind it. The groups of both are moved. Only where this list's length is no multiple of 262,144 are
    /// items copied: those of its last group, and all of the other list.
    ///
    /// # Errors
    ///
    /// Memory ran out. Both lists are gone.
    pub fn append(self, alloc: Global, other: Pages<T>) -> Result<Pages<T>, NoMemory>
        requires room { length self + length other < 2 ^ 32 }
        ensures { IfOk result (λ p. p ≡ self ++ other) }
    {
        let rest = self.with_rest_before(alloc, other)?;
        let Pages { mut groups, len } = self;
        let full = len / GROUP as u32;
        groups.truncate(full as usize);
        let Pages {
            groups: mut more,
            len: behind,
        } = rest;
        groups.append(&mut more)?;
        Ok(Pages {
            groups,
            len: full * GROUP as u32 + behind,
        })
    }

    /// How many items there are.
    pub fn len(&self) -> u32
        ensures { result ≡ length self.now }
    {
        self.len
    }

    /// The item at a place.
    pub fn get(&self, i: u32) -> T
        requires { i < length self.now }
        ensures { slice_get self.now i ≡ Some result }
    {
        let i = i as usize;
        self.groups[i / GROUP].get(i % GROUP)
    }

    /// Puts an item at a place. What another version shares is copied first: a page, and the group's list of its pages.
    ///
    /// # Errors
    ///
    /// Memory ran out. The list is as it was.
    pub fn with(&mut self, i: u32, item: T) -> Result<(), NoMemory>
        requires { i < length self.old }
        ensures ok { OnOk result (self.new ≡ slice_set self.old i item) }
        ensures err { OnErr result (self.new ≡ self.old) }
    {
        let i = i as usize;
        let group = Arc::make_mut(&mut self.groups[i / GROUP])?;
        group.put(i % GROUP, item)?;
        Ok(())
    }

    /// An equal version: a further owner of each group.
    ///
    /// # Errors
    ///
    /// Memory ran out.
    pub fn share(&self, alloc: Global) -> Result<Pages<T>, NoMemory>
        ensures { IfOk result (λ p. p ≡ self.now) }
    {
        let groups = share_all(alloc, &self.groups)?;
        Ok(Pages {
            groups,
            len: self.len,
        })
    }
}
