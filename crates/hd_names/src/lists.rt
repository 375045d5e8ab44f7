//! Many short lists, one after another in one.
ghost use Rattle.std.specs.Prelude.{◌≡◌, ◌+◌, ◌<◌, ◌^◌, ◌∷◌, [], ◌++◌, length, slice_get, IfOk, OnOk};
ghost use Rattle.std.specs.Option.{option_copied};

use std::alloc::{AllocError, Global};
use std::marker::Model;

/// Where a list lies among all elements.
#[derive(Clone, Copy)]
struct Part {
    start: u32,
    len: u32,
}

/// Lists that are numbered from 0: the elements of all, one after another, and eight bytes more for each.
pub struct Lists<T: Copy> {
    elements: Vec<T>,
    parts: Vec<Part>,
}

impl<T: Copy> Drop for Lists<T> {
    /// Drops the fields. A derived drop would be proved anew at each place that lets go of one.
    fn drop(self) {
        let Self { elements, parts } = self;
    }
}

impl<T: Copy> Model for Lists<T> {
    ghost use Rattle.std.specs.Prelude.{List};

    ghost Value = { List (List T) };

    ghost use Rattle.hd_names.specs.ListsInside.{lists_in, AreLists};

    ghost view = { lists_in };

    ghost invariant = { AreLists };
}

/// A number of four bytes, but for the greatest, or out of memory where it takes more.
fn four_bytes(n: usize) -> Result<u32, AllocError>
    ensures is { IfOk result (λ number. number ≡ n) }
    ensures small { OnOk result (n + 1 < 2 ^ 32) }
{
    if n >= u32::MAX as usize {
        return Err(AllocError);
    }
    Ok(n as u32)
}

impl<T: Copy> Lists<T> {
    /// No list.
    pub fn new(alloc: Global) -> Lists<T>
        ensures { result ≡ [] }
    {
        Lists {
            elements: Vec::new(alloc),
            parts: Vec::new(alloc),
        }
    }

    /// No list, with room for the places of `lists` lists.
    ///
    /// # Errors
    ///
    /// Out of memory.
    pub fn with_room(alloc: Global, lists: usize) -> Result<Lists<T>, AllocError>
        ensures { IfOk result (λ lists. lists ≡ []) }
    {
        Ok(Lists {
            elements: Vec::new(alloc),
            parts: Vec::with_capacity(alloc, lists)?,
        })
    }

    /// Adds a list, and answers its number.
    ///
    /// # Errors
    ///
    /// Out of memory, or numbers of four bytes count the elements or the lists no more.
    pub fn push(&mut self, list: &[T]) -> Result<u32, AllocError>
        ensures added { OnOk result (self.new ≡ self.old ++ list.now ∷ []) }
        ensures number { IfOk result (λ number. number ≡ length self.old) }
        ensures few { OnOk result (length self.new < 2 ^ 32) }
    {
        let number = four_bytes(self.parts.len())?;
        let part = Part {
            start: four_bytes(self.elements.len())?,
            len: four_bytes(list.len())?,
        };
        self.elements.extend_from_slice(list)?;
        self.parts.push(part)?;
        Ok(number)
    }

    /// The same lists without room for more.
    pub fn shrunk(self) -> Lists<T>
        ensures { result ≡ self }
    {
        let mut lists = self;
        lists.elements.shrink_to_fit();
        lists.parts.shrink_to_fit();
        lists
    }

    /// The list of a number, if there is one.
    pub fn get(&self, number: usize) -> Option<&[T]>
        ensures { option_copied result ≡ slice_get self.now number }
    {
        match self.parts.get(number) {
            Some(part) => {
                let start = part.start as usize;
                Some(&self.elements[start..start + part.len as usize])
            }
            None => None,
        }
    }
}
