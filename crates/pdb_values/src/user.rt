// What a handheld knows of its user.
ghost use Rattle.std.specs.Prelude.{◌≡◌, ◌≤◌, ◌==◌, false, length};
ghost use Rattle.std.specs.List.{list_any};
ghost use Rattle.pdb_values.specs.Users.{password_of, user_name_of};

use crate::date::PalmDate;
use crate::short::short_bytes;
use arrayvec::ArrayVec;
use std::marker::Model;

/// The name of a user: at most 40 bytes, none of them zero.
#[derive(Drop)]
pub struct UserName {
    bytes: ArrayVec<u8, 40>,
}

impl Model for UserName {
    ghost use Rattle.std.specs.Prelude.{◌≡◌, ◌≤◌, ◌==◌, ℕ, List, false, length};
    ghost use Rattle.std.specs.List.{list_any};

    ghost Value = { List ℕ };

    ghost view = { λ name. name.bytes.items };

    ghost invariant = { λ name. (length name.bytes.items ≤ 40)
        × (list_any (λ byte. byte == 0) name.bytes.items ≡ false) };
}

impl UserName {
    /// The greatest length of a user's name.
    pub const LIMIT: usize = 40;

    /// The name of these bytes.
    pub fn new(bytes: &[u8]) -> Option<UserName>
        ensures { result ≡ user_name_of bytes.now }
    {
        if bytes.len() > Self::LIMIT || bytes.contains(&0) {
            return None;
        }
        Some(UserName {
            bytes: short_bytes(bytes),
        })
    }

    /// The bytes of the name.
    pub fn as_bytes(&self) -> &[u8]
        ensures bytes { result.now ≡ self.now }
        ensures bound { length result.now ≤ 40 }
        ensures no_zero { list_any (λ byte. byte == 0) result.now ≡ false }
    {
        self.bytes.as_slice()
    }

    /// The same name once more. It takes no memory.
    pub fn copy(&self) -> UserName
        ensures { result ≡ self.now }
    {
        UserName {
            bytes: short_bytes(self.bytes.as_slice()),
        }
    }
}

/// The password of a user, as the handheld stores it: at most 40 bytes.
#[derive(Drop)]
pub struct Password {
    bytes: ArrayVec<u8, 40>,
}

impl Model for Password {
    ghost use Rattle.std.specs.Prelude.{◌≤◌, ℕ, List, length};

    ghost Value = { List ℕ };

    ghost view = { λ password. password.bytes.items };

    ghost invariant = { λ password. length password.bytes.items ≤ 40 };
}

impl Password {
    /// The greatest length of a password.
    pub const LIMIT: usize = 40;

    /// The password of these bytes.
    pub fn new(bytes: &[u8]) -> Option<Password>
        ensures { result ≡ password_of bytes.now }
    {
        if bytes.len() > Self::LIMIT {
            return None;
        }
        Some(Password {
            bytes: short_bytes(bytes),
        })
    }

    /// The bytes of the password.
    pub fn as_bytes(&self) -> &[u8]
        ensures bytes { result.now ≡ self.now }
        ensures bound { length result.now ≤ 40 }
    {
        self.bytes.as_slice()
    }

    /// The same password once more. It takes no memory.
    pub fn copy(&self) -> Password
        ensures { result ≡ self.now }
    {
        Password {
            bytes: short_bytes(self.bytes.as_slice()),
        }
    }
}

/// What a handheld knows of its user and of its last HotSync.
#[derive(Drop)]
pub struct UserInfo {
    /// The number of the user. 0 means that the handheld has none yet.
    pub user: u32,
    /// The number of the viewer.
    pub viewer: u32,
    /// The number of the desktop that it synchronized with last.
    pub pc: u32,
    /// When it synchronized successfully last.
    pub good: PalmDate,
    /// When it synchronized last.
    pub last: PalmDate,
    /// The name of the user.
    pub name: UserName,
    /// The password of the user.
    pub password: Password,
}

/// What a desktop knows of a handheld that it synchronized with.
#[derive(Drop)]
pub struct Marks {
    /// The desktop's own number.
    pub pc: u32,
    /// The number of the user.
    pub user: u32,
    /// When they synchronized last.
    pub last: PalmDate,
    /// The name of the user.
    pub name: UserName,
}
