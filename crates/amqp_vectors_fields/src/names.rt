//! Worked rows of the table of names, as the standard has them, and what stands at its ends.

use amqp_fields::{FLAG, LONG_LONG, SHORT_STRING, TABLE};
use amqp_names::{
    Class, Field, Follows, Method, MethodAt, classes, find_class, find_method, method_at,
    properties, property_at,
};

/// Whether it is a method with this name, so many fields, and this after it.
fn is_method(found: Option<Method>, name: &str, fields: usize, follows: Follows) -> bool {
    match found {
        Some(method) => {
            method.name == name && method.fields.len() == fields && method.follows == follows
        }
        None => false,
    }
}

#[test]
fn methods_are_found_by_their_ids(rt: HostRuntime) {
    assert!(rt; is_method(find_method(10, 11), "start-ok", 4, Follows::Nothing));
    assert!(rt; is_method(find_method(10, 70), "update-secret", 2, Follows::Answer));
    assert!(rt; is_method(find_method(40, 10), "declare", 8, Follows::Answer));
    assert!(rt; is_method(find_method(60, 71), "get-ok", 5, Follows::Content));
    assert!(rt; is_method(find_method(60, 120), "nack", 3, Follows::Nothing));
    assert!(rt; find_method(60, 41).is_none() && find_method(61, 40).is_none());
}

/// The fields of `basic.deliver`.
const DELIVER: &[(&str, u8)] = &[
    ("consumer-tag", SHORT_STRING),
    ("delivery-tag", LONG_LONG),
    ("redelivered", FLAG),
    ("exchange", SHORT_STRING),
    ("routing-key", SHORT_STRING),
];

/// Whether fields have these names and kinds.
fn are_fields(fields: &[Field], wanted: &[(&str, u8)]) -> bool {
    let mut same = fields.len() == wanted.len();
    for (field, row) in fields.iter().zip(wanted) {
        same = same && field.name == row.0 && field.kind == row.1;
    }
    same
}

#[test]
fn fields_have_names_and_kinds(rt: HostRuntime) {
    let fields = match find_method(60, 60) {
        Some(method) => method.fields,
        None => &[],
    };
    assert!(rt; are_fields(fields, DELIVER));
}

/// Whether it is a method of this class with this name.
fn is_at(found: Option<MethodAt>, class_id: u16, name: &str) -> bool {
    match found {
        Some(at) => at.class_id == class_id && at.method.name == name,
        None => false,
    }
}

#[test]
fn methods_are_counted(rt: HostRuntime) {
    assert!(rt; is_at(method_at(0), 10, "start"));
    assert!(rt; is_at(method_at(14), 20, "open"));
    assert!(rt; is_at(method_at(59), 85, "select-ok"));
    assert!(rt; is_at(method_at(65), 90, "rollback-ok"));
    assert!(rt; method_at(66).is_none() && method_at(255).is_none());
}

/// Whether it is a class with this name and so many methods.
fn is_class(found: Option<Class>, name: &str, methods: usize) -> bool {
    match found {
        Some(class) => class.name == name && class.methods.len() == methods,
        None => false,
    }
}

#[test]
fn classes_are_found_by_their_ids(rt: HostRuntime) {
    assert!(rt; classes().len() == 8);
    assert!(rt; is_class(find_class(10), "connection", 14));
    assert!(rt; is_class(find_class(60), "basic", 18));
    assert!(rt; find_class(0).is_none() && find_class(91).is_none());
}

/// Whether it is a property with this name and kind.
fn is_property(found: Option<Field>, name: &str, kind: u8) -> bool {
    match found {
        Some(field) => field.name == name && field.kind == kind,
        None => false,
    }
}

#[test]
fn properties_have_places(rt: HostRuntime) {
    assert!(rt; properties().len() == 14);
    assert!(rt; is_property(property_at(0), "content-type", SHORT_STRING));
    assert!(rt; is_property(property_at(2), "headers", TABLE));
    assert!(rt; is_property(property_at(9), "timestamp", LONG_LONG));
    assert!(rt; is_property(property_at(13), "cluster-id", SHORT_STRING));
    assert!(rt; property_at(14).is_none());
}
