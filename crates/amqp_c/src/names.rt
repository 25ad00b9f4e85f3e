//! The table of names: which methods, fields and properties there are, and what the standard calls them.

ghost use Rattle.std.specs.Prelude.{◌≡◌, ◌+◌, ◌≤◌, length, map, slice_get};
ghost use Rattle.amqp_types.specs.Writing.{written};
ghost use Rattle.amqp_names.specs.Tables.{all_methods, field_kind, located, method_in};
ghost use Rattle.amqp_c.specs.Names.{class_name_at, field_name_at, method_name_at, named_method};
ghost use Rattle.amqp_c.specs.Names.{named_method_at, property_kind_at, property_name_at, shape_at};
ghost use Rattle.amqp_c.specs.Statuses.{WritesName};

use crate::statuses::BAD_ARGUMENT;
use amqp_names::{Field, Follows, MethodAt, find_class, find_method, method_at, property_at};
use amqp_types::{Identifier, put_bytes};

/// A method of the table. In C it has 8 bytes and no padding.
#[repr(C)]
#[derive(Clone, Copy, Debug)]
pub struct NamedMethod {
    /// The id of its class.
    pub class_id: Identifier,

    /// Its id in its class.
    pub method_id: Identifier,

    /// How many fields it has that are not reserved, each flag one.
    pub fields: u8,

    /// Whether a content header and bodies follow it.
    pub carries_content: bool,

    /// Whether a method of the peer answers it.
    pub wants_answer: bool,

    /// 0, or 41 where there is no such method: then all else is 0.
    pub status: u8,
}

/// What is reported of a method.
fn named_method(found: MethodAt) -> NamedMethod
    requires few { length found.method.fields.now ≤ 8 }
    ensures { result ≡ named_method (located found) }
{
    NamedMethod {
        class_id: found.class_id,
        method_id: found.method.id,
        fields: found.method.fields.len() as u8,
        carries_content: found.method.follows == Follows::Content,
        wants_answer: found.method.follows == Follows::Answer,
        status: 0,
    }
}

/// Method `k` of the table, counted from 0: by ascending ids of classes, and of methods in each. So a loop up to the first
/// status 41 goes over all.
#[unsafe(no_mangle)]
pub extern "C" fn feksroum_method_at(k: u8) -> NamedMethod
    ensures { result ≡ named_method_at (slice_get all_methods k) }
{
    match method_at(k) {
        Some(found) => named_method(found),
        None => NamedMethod {
            class_id: 0,
            method_id: 0,
            fields: 0,
            carries_content: false,
            wants_answer: false,
            status: BAD_ARGUMENT,
        },
    }
}

/// Puts the kinds of fields at the front of a buffer.
fn put_kinds(fields: &[Field], kinds: &mut [u8])
    requires room { length fields.now ≤ length kinds.old }
    ensures same_length { length kinds.new ≡ length kinds.old }
    ensures put { kinds.new ≡ written kinds.old 0 (map field_kind fields.now) }
{
    let mut place = 0;
    for field in fields {
        place = put_bytes(kinds, place, &[field.kind]);
    }
}

/// The fields of a method.
fn fields_of(class_id: Identifier, method_id: Identifier) -> &'static [Field]
    ensures { map field_kind result.now ≡ shape_at class_id method_id }
{
    match find_method(class_id, method_id) {
        Some(method) => method.fields,
        None => &[],
    }
}

/// Writes the kinds of the fields of a method at the front of a list where all fit, and returns how many fields it has: those
/// that are not reserved, each flag one. 0 where there is no such method.
#[unsafe(no_mangle)]
pub extern "C" fn feksroum_shape(
    class_id: Identifier,
    method_id: Identifier,
    kinds: &mut [u8],
) -> usize
    ensures { WritesName (shape_at class_id method_id) kinds.old kinds.new result }
{
    let fields = fields_of(class_id, method_id);
    if fields.len() <= kinds.len() {
        put_kinds(fields, kinds);
    }
    fields.len()
}

/// The kind of the property at a place; 0 where there is none.
#[unsafe(no_mangle)]
pub extern "C" fn feksroum_property_kind(place: u8) -> u8
    ensures { result ≡ property_kind_at place }
{
    match property_at(place) {
        Some(property) => property.kind,
        None => 0,
    }
}

/// Writes a name at the front of a buffer where it fits, and returns its length.
fn write_name(name: &str, out: &mut [u8]) -> usize
    ensures { WritesName name.now out.old out.new result }
{
    let name = name.as_bytes();
    if name.len() <= out.len() {
        put_bytes(out, 0, name);
    }
    name.len()
}

/// The name of a class, or the empty one.
fn class_name(class_id: Identifier) -> &'static str
    ensures { result.now ≡ class_name_at class_id }
{
    match find_class(class_id) {
        Some(class) => class.name,
        None => "",
    }
}

/// The name of a method, or the empty one.
fn method_name(class_id: Identifier, method_id: Identifier) -> &'static str
    ensures { result.now ≡ method_name_at class_id method_id }
{
    match find_method(class_id, method_id) {
        Some(method) => method.name,
        None => "",
    }
}

/// The name of the field at a place of a method, or the empty one.
fn field_name(class_id: Identifier, method_id: Identifier, place: u8) -> &'static str
    ensures { result.now ≡ field_name_at class_id method_id place }
{
    let Some(method) = find_method(class_id, method_id) else {
        return "";
    };
    match method.fields.get(place as usize) {
        Some(field) => field.name,
        None => "",
    }
}

/// The name of a property, or the empty one.
fn property_name(place: u8) -> &'static str
    ensures { result.now ≡ property_name_at place }
{
    match property_at(place) {
        Some(property) => property.name,
        None => "",
    }
}

/// Writes the name of a class, as `basic`, at the front of a buffer where it fits, and returns its length; 0 where there
/// is no such class.
#[unsafe(no_mangle)]
pub extern "C" fn feksroum_class_name(class_id: Identifier, out: &mut [u8]) -> usize
    ensures { WritesName (class_name_at class_id) out.old out.new result }
{
    write_name(class_name(class_id), out)
}

/// The same of a method, as `get-ok`.
#[unsafe(no_mangle)]
pub extern "C" fn feksroum_method_name(
    class_id: Identifier,
    method_id: Identifier,
    out: &mut [u8],
) -> usize
    ensures { WritesName (method_name_at class_id method_id) out.old out.new result }
{
    write_name(method_name(class_id, method_id), out)
}

/// The same of the field at a place of a method, as `delivery-tag`.
#[unsafe(no_mangle)]
pub extern "C" fn feksroum_field_name(
    class_id: Identifier,
    method_id: Identifier,
    place: u8,
    out: &mut [u8],
) -> usize
    ensures { WritesName (field_name_at class_id method_id place) out.old out.new result }
{
    write_name(field_name(class_id, method_id, place), out)
}

/// The same of the property at a place, as `content-type`.
#[unsafe(no_mangle)]
pub extern "C" fn feksroum_property_name(place: u8, out: &mut [u8]) -> usize
    ensures { WritesName (property_name_at place) out.old out.new result }
{
    write_name(property_name(place), out)
}
