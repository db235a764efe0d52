// What a record holds.
ghost use Rattle.std.specs.Prelude.{◌≡◌, ◌<◌, ◌≤◌, ◌↔◌, length, IsTrue, IfOk, MatchResult, vec_len};

use crate::category::Category;
use std::alloc::{AllocError, Global};
use std::marker::Model;

/// The bytes of a record, at most 65,500, with its category and whether it is secret.
#[derive(Drop)]
pub struct Content {
    category: Category,
    secret: bool,
    bytes: Vec<u8>,
}

/// More bytes than a record or a block may have, handed back.
#[derive(Drop)]
pub struct TooLarge(pub Vec<u8>);

impl Model for Content {
    ghost use Rattle.std.specs.Prelude.{◌≤◌, length};
    ghost use Rattle.pdb_values.specs.Contents.{ContentValue};

    ghost Value = { ContentValue };

    ghost view = { λ content. record {
      category = content.category;
      secret = content.secret;
      bytes = content.bytes.items;
    } };

    ghost invariant = { λ content. length content.bytes.items ≤ 65500 };
}

impl Content {
    ghost use Rattle.pdb_values.specs.Contents.{content_with};

    /// The greatest length of a record.
    pub const LIMIT: usize = 65_500;

    /// A content of these bytes, where they are at most 65,500.
    pub fn new(category: Category, secret: bool, bytes: Vec<u8>) -> Result<Content, TooLarge>
        ensures { MatchResult result
            (λ content. (vec_len bytes ≤ 65500)
            × (content ≡ content_with category secret bytes.items))
            (λ refused. (65500 < vec_len bytes) × (refused.0.items ≡ bytes.items)) }
    {
        if bytes.len() > Self::LIMIT {
            return Err(TooLarge(bytes));
        }
        Ok(Content {
            category,
            secret,
            bytes,
        })
    }

    /// The category.
    pub fn category(&self) -> Category
        ensures { result ≡ self.now.category }
    {
        self.category
    }

    /// Attribute 0x10: the user marked the record private.
    pub fn secret(&self) -> bool
        ensures { result ≡ self.now.secret }
    {
        self.secret
    }

    /// The bytes.
    pub fn bytes(&self) -> &[u8]
        ensures bytes { result.now ≡ self.now.bytes }
        ensures bound { length result.now ≤ 65500 }
    {
        &self.bytes
    }

    /// Compares category, secrecy and bytes.
    pub fn same(&self, other: &Content) -> bool
        ensures { IsTrue result ↔ (self.now ≡ other.now) }
    {
        self.category == other.category && self.secret == other.secret && self.bytes == other.bytes
    }

    /// The same content once more.
    pub fn copy(&self, alloc: Global) -> Result<Content, AllocError>
        ensures { IfOk result (λ copy. copy ≡ self.now) }
    {
        Ok(Content {
            category: self.category,
            secret: self.secret,
            bytes: Vec::from_slice(alloc, &self.bytes)?,
        })
    }

    /// Puts the content into another category. All else stays.
    pub fn set_category(&mut self, category: Category)
        ensures { self.new ≡ record self.old { category = category } }
    {
        self.category = category;
    }
}
