// The fields of an address.
ghost use Rattle.std.specs.Prelude.{◌≡◌, ◌<◌};
ghost use Rattle.palm_records.specs.Addresses.{address_value};
ghost use Rattle.card_export.specs.Exports.{field_text};

use palm_records::Address;

/// The last name.
pub const LAST: usize = 0;

/// The first name.
pub const FIRST: usize = 1;

/// The company.
pub const COMPANY: usize = 2;

/// The first of the five phones.
pub const PHONES: usize = 3;

/// The street.
pub const STREET: usize = 8;

/// The city.
pub const CITY: usize = 9;

/// The state.
pub const STATE: usize = 10;

/// The zip code.
pub const ZIP: usize = 11;

/// The country.
pub const COUNTRY: usize = 12;

/// The title.
pub const TITLE: usize = 13;

/// The first of the four custom fields.
pub const CUSTOMS: usize = 14;

/// The note.
pub const NOTE: usize = 18;

/// The text of a field, empty where it is not there.
pub fn field<'a>(address: &Address<'a>, number: usize) -> &'a [u8]
    requires { number < 19 }
    ensures { result.now ≡ field_text (address_value address.now) number }
{
    address.fields[number].unwrap_or(&[])
}
