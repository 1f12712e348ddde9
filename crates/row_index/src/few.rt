//! Lists of which most have at most one item.

ghost use Rattle.std.specs.Prelude.{◌≡◌, ◌==◌, IfOk, length};
ghost use Rattle.row_index.specs.Few.{listed};

use std::alloc::{AllocError, Global};

/// A list: at most one item takes no memory of its own.
#[derive(Drop)]
pub enum Few<T> {
    Sole(Option<T>),
    Many(Vec<T>),
}

impl<T: Drop> Few<T> {
    /// How many items there are.
    #[inline(always)]
    pub fn len(&self) -> usize
        ensures { result ≡ length (listed self.now) }
    {
        match self {
            Few::Sole(None) => 0,
            Few::Sole(Some(_)) => 1,
            Few::Many(items) => items.len(),
        }
    }

    /// Whether there is no item.
    #[inline(always)]
    pub fn is_empty(&self) -> bool
        ensures { result ≡ (length (listed self.now) == 0) }
    {
        self.len() == 0
    }

    /// The items in a vector.
    pub fn into_vec(self, alloc: Global) -> Result<Vec<T>, AllocError>
        ensures { IfOk result (λ v. v.items ≡ listed self) }
    {
        match self {
            Few::Sole(None) => Ok(Vec::new(alloc)),
            Few::Sole(Some(item)) => {
                let mut items = Vec::with_capacity(alloc, 1)?;
                items.push(item)?;
                Ok(items)
            }
            Few::Many(items) => Ok(items),
        }
    }
}
