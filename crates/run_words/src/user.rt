// The name of a user as a word.
ghost use Rattle.std.specs.Prelude.{◌≡◌, option_copied};
ghost use Rattle.run_words.specs.UserNames.{user_of, wished_name as wished};

use arrayvec::ArrayVec;
use memo_texts::byte_of;
use pdb_values::UserName;

/// The name that a word gives a user: 1 to 40 characters, each of which a byte of the handheld stands for.
pub fn user_in(word: &str) -> Option<UserName>
    ensures { result ≡ user_of word.now }
{
    let mut bytes: ArrayVec<u8, 40> = ArrayVec::new();
    for ch in word.chars() {
        match byte_of(ch) {
            Some(byte) => match bytes.try_push(byte) {
                Ok(()) => {}
                Err(_) => return None,
            },
            None => return None,
        }
    }
    if bytes.is_empty() {
        return None;
    }
    UserName::new(bytes.as_slice())
}

/// The name that is asked for, by what `--user` gives. An empty one is none.
pub fn wished_name(user: Option<&str>) -> UserName
    ensures { result ≡ wished (option_copied user.entry) }
{
    let Some(word) = user else {
        return UserName::new(&[]).unwrap();
    };
    match user_in(word) {
        Some(name) => name,
        None => UserName::new(&[]).unwrap(),
    }
}
