// What a record has behind its head.
ghost use Rattle.std.specs.Prelude.{◌≡◌};
ghost use Rattle.palm_events.specs.Flags.{flags_of};

// What a record has behind its head.
#[derive(Clone, Copy)]
pub struct Flags {
    pub alarm: bool,
    pub repeat: bool,
    pub note: bool,
    pub exceptions: bool,
    pub description: bool,
}

impl Flags {
    // What a word says of that.
    pub fn of_word(word: u16) -> Flags
        ensures { result ≡ flags_of word }
    {
        Flags {
            alarm: word / 0x4000 % 2 == 1,
            repeat: word / 0x2000 % 2 == 1,
            note: word / 0x1000 % 2 == 1,
            exceptions: word / 0x0800 % 2 == 1,
            description: word / 0x0400 % 2 == 1,
        }
    }
}
