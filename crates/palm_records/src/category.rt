// Labels of categories.
ghost use Rattle.std.specs.Prelude.{◌≡◌};
ghost use Rattle.std.specs.Option.{option_copied};
ghost use Rattle.palm_records.specs.Categories.{category_label, label_in};

use crate::text::until_zero;
use pdb_values::Category;

/// The length of the categories in an app block.
const CATEGORIES: usize = 276;

/// The length of a label.
const LABEL: usize = 16;

/// The label that an app block gives to a category, empty where it has none.
pub fn category_label(app: Option<&[u8]>, category: Category) -> &[u8]
    ensures { result.now ≡ category_label (option_copied app.entry) category }
{
    match app {
        Some(block) => label_in(block, category),
        None => &[],
    }
}

// The label in a block.
fn label_in(block: &[u8], category: Category) -> &[u8]
    ensures { result.now ≡ label_in block.now category }
{
    if block.len() < CATEGORIES {
        return &[];
    }
    let begin = 2 + LABEL * usize::from(category.number());
    until_zero(&block[begin..begin + LABEL])
}
