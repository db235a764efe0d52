// Days in records.
ghost use Rattle.std.specs.Prelude.{◌≡◌, IfSome, IsTrue};
ghost use Rattle.palm_records.specs.Days.{day_in, day_of};
ghost use Rattle.palm_events.specs.Forms.{is_record_day};

use palm_records::Day;

// The day that a word says, where the calendar has it.
#[tactic(auto, using(crate::proofs::FormLaws::form_of_day_in))]
pub fn day_in(word: u16) -> Option<Day>
    ensures day { result ≡ day_in word }
    ensures form { IfSome result (λ day. IsTrue (is_record_day day)) }
{
    palm_records::day_in(word)
}

// The day that a word says, whether or not the calendar has it.
pub fn day_of(word: u16) -> Day
    ensures { result ≡ day_of word }
{
    Day {
        year: 1904 + word / 512,
        month: (word / 32 % 16) as u8,
        day: (word % 32) as u8,
    }
}
