//! The search in the class table.

ghost use Rattle.std.specs.Prelude.{◌≡◌, IfSome};
ghost use Rattle.class_spec.specs.Classes.{class_row};
ghost use Rattle.entity_classes.specs.Rule.{IsRow};

use crate::classes::Class;
use crate::kinds::find;

/// The class of this number, where the profile has one. It takes no memory.
pub fn class(number: u16) -> Option<Class>
    ensures row { result ≡ class_row number }
    ensures rule { IfSome result IsRow }
{
    match find(number) {
        Some(kind) => Some(Class::of(kind)),
        None => None,
    }
}
