// Properties of vCard and iCalendar.
ghost use Rattle.std.specs.Prelude.{◌≡◌, ◌++◌, ◌∷◌, [], IfOk, OnOk, string_bytes, true};
ghost use Rattle.content_lines.specs.Lines.{lines_text};
ghost use Rattle.content_lines.specs.Properties.{IsBytes, given_property, is_name, is_plain, plain_property, properties_text, property_line, text_property};

use crate::fold::push_line;
use crate::text::Text;
use std::alloc::{AllocError, Global};
use std::marker::Model;

// A property: its name with its parameters, and its value.
#[derive(Drop)]
struct Property {
    name: String,
    value: Text,
}

impl Model for Property {
    ghost use Rattle.std.specs.Prelude.{◌≡◌, string_bytes, true};
    ghost use Rattle.content_lines.specs.Properties.{PropertyValue, is_name};

    ghost Value = { PropertyValue };

    ghost view = { λ property. record {
      name = string_bytes property.name;
      value = property.value;
    } };

    ghost invariant = { λ property. is_name (string_bytes property.name) ≡ true };
}

impl Property {
    // Appends its line to a text.
    fn push_to(&self, alloc: Global, text: &mut String) -> Result<(), AllocError>
        ensures { OnOk result (string_bytes text.new
            ≡ string_bytes text.old ++ lines_text (property_line self.now ∷ [])) }
    {
        let mut line = String::from_str(alloc, self.name.as_str())?;
        line.push_str(":")?;
        line.push_str(self.value.as_str())?;
        push_line(text, line.as_str())?;
        Ok(())
    }
}

/// Properties, in their order.
#[derive(Drop)]
pub struct Properties {
    list: Vec<Property>,
}

impl Model for Properties {
    ghost use Rattle.std.specs.Prelude.{List};
    ghost use Rattle.content_lines.specs.Properties.{PropertyValue};

    ghost Value = { List PropertyValue };

    ghost view = { λ properties. properties.list.items };
}

impl Properties {
    /// No properties.
    pub fn new(alloc: Global) -> Properties
        ensures { result ≡ [] }
    {
        Properties {
            list: Vec::new(alloc),
        }
    }

    /// Appends a property.
    pub fn push(&mut self, alloc: Global, name: &str, value: Text) -> Result<(), AllocError>
        requires { is_name name.now ≡ true }
        ensures { OnOk result (self.new ≡ self.old ++ plain_property name.now value ∷ []) }
    {
        let name = String::from_str(alloc, name)?;
        self.list.push(Property { name, value })?;
        Ok(())
    }

    /// Appends a property whose value is written as it is.
    pub fn push_plain(&mut self, alloc: Global, name: &str, value: &str) -> Result<(), AllocError>
        requires name { is_name name.now ≡ true }
        requires value { is_plain value.now ≡ true }
        ensures { OnOk result (self.new ≡ self.old ++ plain_property name.now value.now ∷ []) }
    {
        let value = Text::new(alloc, value)?;
        self.push(alloc, name, value)?;
        Ok(())
    }

    /// Appends a property with a text of a Palm as its value.
    pub fn push_text(&mut self, alloc: Global, name: &str, text: &[u8]) -> Result<(), AllocError>
        requires { is_name name.now ≡ true }
        ensures property { OnOk result (self.new ≡ self.old ++ text_property name.now text.now ∷ []) }
        ensures bytes { IsBytes text.now }
    {
        let mut value = Text::new(alloc, "")?;
        value.push_text(text)?;
        self.push(alloc, name, value)?;
        Ok(())
    }

    /// Appends that property, where the text isn't empty.
    pub fn push_given(&mut self, alloc: Global, name: &str, text: &[u8]) -> Result<(), AllocError>
        requires { is_name name.now ≡ true }
        ensures property { OnOk result (self.new ≡ self.old ++ given_property name.now text.now) }
        ensures bytes { IsBytes text.now }
    {
        if text.is_empty() {
            return Ok(());
        }
        self.push_text(alloc, name, text)?;
        Ok(())
    }

    /// Their text, each on a line.
    pub fn text(&self, alloc: Global) -> Result<String, AllocError>
        ensures { IfOk result (λ text. string_bytes text ≡ properties_text self.now) }
    {
        let mut text = String::new(alloc);
        push_lines(alloc, &mut text, self.list.as_slice())?;
        Ok(text)
    }
}

// Appends the lines of properties to a text.
fn push_lines(alloc: Global, text: &mut String, list: &[Property]) -> Result<(), AllocError>
    ensures { OnOk result (string_bytes text.new ≡ string_bytes text.old ++ properties_text list.now) }
{
    for property in list {
        property.push_to(alloc, text)?;
    }
    Ok(())
}
