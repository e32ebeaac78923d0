ghost use Rattle.std.specs.Prelude.{◌≡◌, ◌++◌, ◌↔◌, [], length, string_bytes, IfOk, OnOk, OnErr, IsTrue};
ghost use Rattle.std.specs.Ordering.{nat_cmp};
ghost use Rattle.std.specs.Cmp.Lexicographic.{slice_cmp};

use kql_items::Items;
use std::alloc::{AllocError, Global};
use std::cmp::Ordering;
use std::marker::Model;

/// A text in UTF-8, which contracts see as the list of its bytes.
#[derive(Debug, Drop)]
pub struct KText {
    text: String,
}

impl Model for KText {
    ghost use Rattle.std.specs.Prelude.{List, ℕ, string_bytes};

    ghost Value = { List ℕ };

    ghost view = { λ t. string_bytes t.text };
}

impl KText {
    /// The empty text, which takes no memory.
    pub fn new(alloc: Global) -> KText
        ensures empty { result ≡ [] }
    {
        KText {
            text: String::new(alloc),
        }
    }

    /// A copy of a text.
    pub fn from_str(alloc: Global, text: &str) -> Result<KText, AllocError>
        ensures same { IfOk result (λ t. t ≡ text.now) }
    {
        Ok(KText {
            text: String::from_str(alloc, text)?,
        })
    }

    /// A `String` as a text, which takes no memory.
    pub fn from_string(text: String) -> KText
        ensures same { result ≡ string_bytes text }
    {
        KText { text }
    }

    /// The text as a `&str`.
    pub fn as_str(&self) -> &str
        ensures same { result.now ≡ self.now }
    {
        self.text.as_str()
    }

    /// How many bytes it has.
    pub fn len(&self) -> usize
        ensures count { result ≡ length self.now }
    {
        self.text.len()
    }

    /// Whether it has no byte.
    pub fn is_empty(&self) -> bool
        ensures empty { IsTrue result ↔ (self.now ≡ []) }
    {
        self.text.is_empty()
    }

    /// Adds a text at the end.
    pub fn push_str(&mut self, text: &str) -> Result<(), AllocError>
        ensures added { OnOk result (self.new ≡ self.old ++ text.now) }
        ensures kept { OnErr result (self.new ≡ self.old) }
    {
        self.text.push_str(text)
    }

    /// An equal text.
    pub fn copy(&self, alloc: Global) -> Result<KText, AllocError>
        ensures same { IfOk result (λ t. t ≡ self.now) }
    {
        KText::from_str(alloc, self.as_str())
    }

    /// Whether two texts have the same bytes.
    pub fn equals(&self, other: &KText) -> bool
        ensures same { IsTrue result ↔ (self.now ≡ other.now) }
    {
        self.as_str() == other.as_str()
    }

    /// The order of two texts by their bytes.
    pub fn order(&self, other: &KText) -> Ordering
        ensures bytes { result ≡ slice_cmp nat_cmp self.now other.now }
    {
        self.as_str().cmp(other.as_str())
    }
}

/// Equal names.
pub fn copy_names(alloc: Global, names: &[KText]) -> Result<Items<KText>, AllocError>
    ensures same { IfOk result (λ ns. ns ≡ names.now) }
{
    let mut copies = Items::with_capacity(alloc, names.len())?;
    for name in names {
        let copy = name.copy(alloc)?;
        copies.push(copy)?;
    }
    Ok(copies)
}
