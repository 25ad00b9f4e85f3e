//! The names of methods and of their fields, as words of a line.

ghost use Rattle.std.specs.Prelude.{◌≡◌, map};
ghost use Rattle.amqp_names.specs.Tables.{class_at, class_names_of};
ghost use Rattle.amqp_names.specs.Tables.{field_name, method_in, method_names};
ghost use Rattle.amqp_lines.specs.Rendering.{AppendsText};
ghost use Rattle.amqp_named_lines.specs.NamedLines.{field_words, method_words, named_as};

use amqp_names::{Class, Field, Method, find_class, find_method};
use amqp_types::{Identifier, NoMemory};

/// Appends the names of fields, each after a space.
fn write_fields(out: &mut Vec<u8>, fields: &[Field]) -> Result<(), NoMemory>
    ensures { AppendsText out.old.items out.new.items
        (field_words (map field_name fields.now)) result }
{
    match fields {
        [] => Ok(()),
        [first, others @ ..] => {
            out.push(b' ')?;
            out.extend_from_slice(first.name.as_bytes())?;
            write_fields(out, others)
        }
    }
}

/// Appends the names of a class, of a method and of its fields, and a colon and a space.
fn write_words(out: &mut Vec<u8>, class: Class, method: Method) -> Result<(), NoMemory>
    ensures { AppendsText out.old.items out.new.items
        (method_words (class_names_of class) (method_names method)) result }
{
    out.extend_from_slice(class.name.as_bytes())?;
    out.push(b'.')?;
    out.extend_from_slice(method.name.as_bytes())?;
    write_fields(out, method.fields)?;
    out.extend_from_slice(b": ")?;
    Ok(())
}

/// Appends what is said of the method with these ids; of one that the standard does not have, nothing.
pub(crate) fn write_method(
    out: &mut Vec<u8>,
    class_id: Identifier,
    method_id: Identifier,
) -> Result<(), NoMemory>
    ensures { AppendsText out.old.items out.new.items
        (named_as (class_at class_id) (method_in class_id method_id)) result }
{
    let Some(class) = find_class(class_id) else {
        return Ok(());
    };
    let Some(method) = find_method(class_id, method_id) else {
        return Ok(());
    };
    write_words(out, class, method)
}
