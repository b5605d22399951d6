ghost use Rattle.std.specs.Prelude.{◌≡◌, ◌==◌, [], ◌∷◌, ◌++◌, ◌<◌, length, slice_get, slice_set, ◌↔◌, IsTrue};
ghost use Rattle.std.specs.Prelude.{IfOk, OnOk, OnErr, OnSome, MatchOption};
ghost use Rattle.std.specs.Option.{option_copied};

use std::alloc::{AllocError, Global};
use std::marker::Model;

/// A growable list, which contracts see as the list of its items: two of them are equal where their
/// items are, whatever memory they hold in reserve.
#[derive(Debug)]
pub struct Items<T> {
    items: Vec<T>,
}

impl<T: Drop> Drop for Items<T> {
    fn drop(self) {
        let Items { items: _ } = self;
    }
}

impl<T> Model for Items<T> {
    ghost use Rattle.std.specs.Prelude.{List};
    ghost use Rattle.std.specs.Coded.{coded_list};

    ghost Value = { List T };

    ghost coded = { coded_list T.code };

    ghost view = { λ list. list.items.items };
}

impl<T> Items<T> {
    /// A list with no item. It takes no memory until the first `push`.
    pub fn new(alloc: Global) -> Items<T>
        ensures { result ≡ [] }
    {
        let items = Vec::new(alloc);
        Items { items }
    }

    /// The items of a vector, in order. It takes no memory.
    pub fn from_vec(items: Vec<T>) -> Items<T>
        ensures { result ≡ items.items }
    {
        Items { items }
    }

    /// The items as a vector, in order. It takes no memory.
    pub fn into_vec(self) -> Vec<T>
        ensures { result.items ≡ self }
    {
        let Items { items } = self;
        items
    }

    /// The items, lent in order.
    pub fn as_slice(&self) -> &[T]
        ensures { result.now ≡ self.now }
    {
        self.items.as_slice()
    }

    /// The count of the items.
    pub fn len(&self) -> usize
        ensures { result ≡ length self.now }
    {
        self.items.len()
    }

    /// Whether there is no item.
    pub fn is_empty(&self) -> bool
        ensures empty { IsTrue result ↔ (self.now ≡ []) }
        ensures count { result ≡ (length self.now == 0) }
    {
        self.items.is_empty()
    }

    /// The item at an index from 0, or none past the end.
    pub fn get(&self, index: usize) -> Option<&T>
        ensures item { option_copied result ≡ slice_get self.now index }
        ensures within { OnSome result (index < length self.now) }
    {
        self.items.get(index)
    }

    /// Takes out the last item; there is none where the list is empty.
    pub fn pop(&mut self) -> Option<T>
        ensures { MatchOption result ((self.old ≡ []) × (self.new ≡ [])) (λ last. self.old ≡ self.new ++ last ∷ []) }
    {
        self.items.pop()
    }
}

impl<T: Drop> Items<T> {
    /// Puts an item at the end. Where memory is wanting the list is unchanged, and the item is dropped.
    pub fn push(&mut self, item: T) -> Result<(), AllocError>
        ensures pushed { OnOk result (self.new ≡ self.old ++ item ∷ []) }
        ensures unchanged { OnErr result (self.new ≡ self.old) }
    {
        self.items.push(item)?;
        Ok(())
    }

    /// Moves the items of another list to the end. Where memory is wanting the list is unchanged, and
    /// the others are dropped.
    pub fn append(&mut self, more: Items<T>) -> Result<(), AllocError>
        ensures appended { OnOk result (self.new ≡ self.old ++ more) }
        ensures unchanged { OnErr result (self.new ≡ self.old) }
    {
        let Items { mut items } = more;
        self.items.append(&mut items)
    }

    /// Puts an item in the place of the one at an index from 0, which is dropped.
    pub fn set(&mut self, index: usize, item: T)
        requires { index < length self.old }
        ensures { self.new ≡ slice_set self.old index item }
    {
        self.items[index] = item;
    }
}

impl<T: Copy> Items<T> {
    /// A list of the items of a slice. It fails where memory is wanting.
    pub fn from_slice(alloc: Global, items: &[T]) -> Result<Items<T>, AllocError>
        ensures { IfOk result (λ list. list ≡ items.now) }
    {
        let items = Vec::from_slice(alloc, items)?;
        Ok(Items { items })
    }
}
