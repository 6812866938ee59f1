//! Where records stand, and how long their chains are.

ghost use Rattle.std.specs.Prelude.{◌≡◌, length};

use plain_types::Text;
use std::marker::Model;

/// Where a record stands: whose it is, and its index, from 0, in the chain of a host and a tag.
#[derive(Debug, Drop)]
pub struct Place {
    pub owner: u32,
    pub host: u128,
    pub tag: Text,
    pub idx: u64,
}

/// A chain of one owner: the records of a host and a tag.
#[derive(Debug, Drop)]
pub struct Chain {
    pub host: u128,
    pub tag: Text,
    /// The number of its records, and so the index of the next one.
    pub count: u64,
}

/// Chains in an order. Contracts see the list of them.
#[derive(Debug, Drop)]
pub struct Chains {
    inner: Vec<Chain>,
}

impl Model for Chains {
    ghost use Rattle.std.specs.Prelude.{List};
    ghost use Rattle.record_model.specs.declared.places.Chain.{Chain};

    ghost Value = { List Chain };

    ghost view = { λ c. c.inner.items };
}

impl Chains {
    /// The chains of `inner`, in its order. It takes no memory.
    pub fn from_vec(inner: Vec<Chain>) -> Chains
        ensures { result ≡ inner.items }
    {
        Chains { inner }
    }

    /// The chains as a `Vec`. It takes no memory.
    pub fn into_vec(self) -> Vec<Chain>
        ensures { result.items ≡ self }
    {
        self.inner
    }

    /// The chains in their order.
    pub fn as_slice(&self) -> &[Chain]
        ensures { result.now ≡ self.now }
    {
        self.inner.as_slice()
    }

    /// The number of chains.
    pub fn len(&self) -> usize
        ensures { result ≡ length self.now }
    {
        self.as_slice().len()
    }
}
