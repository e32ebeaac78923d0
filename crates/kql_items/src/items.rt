ghost use Rattle.std.specs.Prelude.{◌≡◌, [], ◌∷◌, ◌++◌, ◌<◌, ◌^◌, ◌↔◌, length, take, reverse, remove, slice_get, slice_set, slice_index_or, IsTrue, IfOk, MatchOption, OnOk, OnErr, OnSome};
ghost use Rattle.std.specs.Option.{option_copied};

use std::alloc::{AllocError, Global};
use std::marker::Model;

/// A `Vec` that contracts see as the list of its items.
#[derive(Debug, Drop)]
pub struct Items<T> {
    items: Vec<T>,
}

impl<T> Model for Items<T> {
    ghost use Rattle.std.specs.Prelude.{List};
    ghost use Rattle.std.specs.Coded.{coded_list};

    ghost Value = { List T };

    ghost coded = { coded_list T.code };

    ghost view = { λ it. it.items.items };
}

impl<T> Items<T> {
    /// No items, which takes no memory.
    pub fn new(alloc: Global) -> Items<T>
        ensures empty { result ≡ [] }
    {
        Items {
            items: Vec::new(alloc),
        }
    }

    /// No items, with room for `capacity` of them.
    pub fn with_capacity(alloc: Global, capacity: usize) -> Result<Items<T>, AllocError>
        ensures empty { IfOk result (λ it. it ≡ []) }
    {
        Ok(Items {
            items: Vec::with_capacity(alloc, capacity)?,
        })
    }

    /// The items of a `Vec`, which takes no memory.
    pub fn from_vec(items: Vec<T>) -> Items<T>
        ensures items { result ≡ items.items }
    {
        Items { items }
    }

    /// The items as a `Vec`, which takes no memory.
    pub fn into_vec(self) -> Vec<T>
        ensures items { result.items ≡ self }
    {
        let Items { items } = self;
        items
    }

    /// All items, borrowed.
    pub fn as_slice(&self) -> &[T]
        ensures items { result.now ≡ self.now }
    {
        self.items.as_slice()
    }

    /// How many items there are.
    pub fn len(&self) -> usize
        ensures count { result ≡ length self.now }
    {
        self.items.len()
    }

    /// Whether there is no item.
    pub fn is_empty(&self) -> bool
        ensures empty { IsTrue result ↔ (self.now ≡ []) }
    {
        self.items.is_empty()
    }

    /// The item at a place, or none behind the last.
    pub fn get(&self, at: usize) -> Option<&T>
        ensures value { option_copied result ≡ slice_get self.now at }
        ensures within { OnSome result (at < length self.now) }
    {
        self.items.get(at)
    }

    /// Takes the last item off.
    pub fn pop(&mut self) -> Option<T>
        ensures last { MatchOption result ((self.old ≡ []) × (self.new ≡ [])) (λ last. self.old ≡ self.new ++ last ∷ []) }
    {
        self.items.pop()
    }

    /// Turns the order of the items round.
    pub fn reverse(&mut self)
        ensures turned { self.new ≡ reverse self.old }
    {
        self.items.reverse();
    }
}

impl<T: Drop> Items<T> {
    /// Adds an item at the end. Without memory the item is dropped.
    pub fn push(&mut self, item: T) -> Result<(), AllocError>
        ensures added { OnOk result (self.new ≡ self.old ++ item ∷ []) }
        ensures kept { OnErr result (self.new ≡ self.old) }
    {
        self.items.push(item)?;
        Ok(())
    }

    /// Moves other items to the end. Without memory they are dropped.
    pub fn append(&mut self, more: Items<T>) -> Result<(), AllocError>
        ensures added { OnOk result (self.new ≡ self.old ++ more) }
        ensures kept { OnErr result (self.new ≡ self.old) }
    {
        let Items { mut items } = more;
        self.items.append(&mut items)
    }

    /// Moves all items to the end of a `Vec`.
    pub fn drain_into(&mut self, out: &mut Vec<T>) -> Result<(), AllocError>
        ensures moved { OnOk result ((self.new ≡ []) × (out.new.items ≡ out.old.items ++ self.old)) }
        ensures kept { OnErr result ((self.new ≡ self.old) × (out.new.items ≡ out.old.items)) }
    {
        out.append(&mut self.items)
    }

    /// Puts an item in the place of another, which is dropped.
    pub fn set(&mut self, at: usize, item: T)
        requires { at < length self.old }
        ensures placed { self.new ≡ slice_set self.old at item }
    {
        self.items[at] = item;
    }

    /// Takes an item out; those behind it move up, in time linear in their number.
    pub fn remove(&mut self, at: usize) -> T
        requires { at < length self.old }
        ensures item { slice_get self.old at ≡ Some result }
        ensures rest { self.new ≡ remove self.old at }
    {
        self.items.remove(at)
    }

    /// Drops the items from a place on.
    pub fn truncate(&mut self, count: usize)
        ensures rest { self.new ≡ take count self.old }
    {
        self.items.truncate(count);
    }
}

impl<T> Items<Items<T>> {
    /// Adds an item at the end of one of the lists.
    pub fn push_at(&mut self, at: usize, item: T) -> Result<(), AllocError>
    where
        T: Drop,
        requires { at < length self.old }
        ensures added { OnOk result (self.new ≡ slice_set self.old at (slice_index_or self.old at [] ++ item ∷ [])) }
        ensures kept { OnErr result (self.new ≡ self.old) }
    {
        self.items[at].push(item)
    }
}

#[cfg(test)]
mod tests {
    use super::*;
    use crate::boxed::Boxed;
    use std::test::Fail;

    #[test]
    fn each_call_with_ample_memory(rt: HostRuntime) -> Result<(), Fail> {
        let alloc = rt.alloc();
        let mut list = Items::with_capacity(alloc, 2)?;
        assert!(rt; list.is_empty());
        for n in [7u64, 8, 9] {
            list.push(n)?;
        }
        let mut more = Items::new(alloc);
        more.push(5u64)?;
        list.append(more)?;
        list.reverse();
        assert_eq!(rt; list.as_slice(), [5u64, 9, 8, 7].as_slice());
        assert_eq!(rt; list.len(), 4);
        assert_eq!(rt; list.remove(0), 5);
        list.set(0, 1);
        list.truncate(2);
        assert_eq!(rt; list.pop(), Some(8));
        assert_eq!(rt; list.get(0).copied(), Some(1));
        let mut list = Items::from_vec(list.into_vec());
        let mut out = Vec::new(alloc);
        list.drain_into(&mut out)?;
        assert!(rt; list.is_empty());
        assert_eq!(rt; out.as_slice(), [1u64].as_slice());
        let list = Items::from_vec(out);
        let mut lists = Items::new(alloc);
        lists.push(list)?;
        lists.push_at(0, 6)?;
        assert_eq!(rt; lists.as_slice()[0].as_slice(), [1u64, 6].as_slice());
        let boxed = Boxed::new(alloc, 3u64)?;
        assert_eq!(rt; *boxed.get(), 3);
        assert_eq!(rt; boxed.into_inner(), 3);
        Ok(())
    }
}
