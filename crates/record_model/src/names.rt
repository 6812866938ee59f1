//! Texts in an order, alone and under names.

ghost use Rattle.std.specs.Prelude.{◌≡◌, length};

use plain_types::Text;
use std::marker::Model;

/// Texts in an order. Contracts see the list of them.
#[derive(Debug, Drop)]
pub struct Texts {
    inner: Vec<Text>,
}

impl Model for Texts {
    ghost use Rattle.std.specs.Prelude.{List, ℕ};

    ghost Value = { List (List ℕ) };

    ghost view = { λ t. t.inner.items };
}

impl Texts {
    /// The texts of `inner`, in its order. It takes no memory.
    pub fn from_vec(inner: Vec<Text>) -> Texts
        ensures { result ≡ inner.items }
    {
        Texts { inner }
    }

    /// The texts as a `Vec`. It takes no memory.
    pub fn into_vec(self) -> Vec<Text>
        ensures { result.items ≡ self }
    {
        self.inner
    }

    /// The texts in their order.
    pub fn as_slice(&self) -> &[Text]
        ensures { result.now ≡ self.now }
    {
        self.inner.as_slice()
    }

    /// The number of texts.
    pub fn len(&self) -> usize
        ensures { result ≡ length self.now }
    {
        self.as_slice().len()
    }
}

/// A name and the text that it stands for.
#[derive(Debug, Drop)]
pub struct NamedText {
    pub name: Text,
    pub value: Text,
}

/// Texts under names, in an order. Contracts see the list of them.
#[derive(Debug, Drop)]
pub struct NamedTexts {
    inner: Vec<NamedText>,
}

impl Model for NamedTexts {
    ghost use Rattle.std.specs.Prelude.{List};
    ghost use Rattle.record_model.specs.declared.names.NamedText.{NamedText};

    ghost Value = { List NamedText };

    ghost view = { λ n. n.inner.items };
}

impl NamedTexts {
    /// The texts of `inner`, in its order. It takes no memory.
    pub fn from_vec(inner: Vec<NamedText>) -> NamedTexts
        ensures { result ≡ inner.items }
    {
        NamedTexts { inner }
    }

    /// The texts as a `Vec`. It takes no memory.
    pub fn into_vec(self) -> Vec<NamedText>
        ensures { result.items ≡ self }
    {
        self.inner
    }

    /// The texts in their order.
    pub fn as_slice(&self) -> &[NamedText]
        ensures { result.now ≡ self.now }
    {
        self.inner.as_slice()
    }

    /// The number of texts.
    pub fn len(&self) -> usize
        ensures { result ≡ length self.now }
    {
        self.as_slice().len()
    }
}
