// The labels of custom fields.
ghost use Rattle.std.specs.Prelude.{◌≡◌, ◌<◌};
ghost use Rattle.card_export.specs.Labels as labels;

use palm_records::until_zero;

/// Where the labels of fields begin in an app block.
const LABELS: usize = 282;

/// The length of a label.
const LABEL: usize = 16;

/// The field that is the first custom one.
const FIRST_CUSTOM: usize = 14;

/// The label that an app block gives to a custom field, empty where the block ends before it.
pub fn custom_label(block: &[u8], number: usize) -> &[u8]
    requires { number < 4 }
    ensures { result.now ≡ labels.custom_label block.now number }
{
    let begin = LABELS + LABEL * (FIRST_CUSTOM + number);
    if block.len() < begin + LABEL {
        return &[];
    }
    until_zero(&block[begin..begin + LABEL])
}
