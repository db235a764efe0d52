// The label under which a record is exported.
ghost use Rattle.std.specs.Prelude.{◌≡◌};
ghost use Rattle.std.specs.Option.{option_copied};
ghost use Rattle.palm_records.specs.Choices as choices;

use crate::category::category_label;
use pdb_values::Category;

/// The label of a category, where it isn't the one without a name.
pub fn shown_label(app: Option<&[u8]>, category: Category) -> &[u8]
    ensures { result.now ≡ choices.shown_label (option_copied app.entry) category }
{
    if category.number() == 0 {
        &[]
    } else {
        category_label(app, category)
    }
}
