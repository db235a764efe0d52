// What is asked of a session.
use desktop_session::UserWish;
use pdb_values::PalmDate;
use run_words::NamedAction;

/// What is asked of a session.
#[derive(Drop)]
pub struct Wishes {
    /// The date that both sides take as that of the session.
    pub date: PalmDate,
    /// Whether every database is read whole, also where both sides agree.
    pub slow: bool,
    /// What is asked of the handheld's user.
    pub user: UserWish,
    /// What is done with a database, by its name. One that is not named is synchronised.
    pub actions: Vec<NamedAction>,
}
