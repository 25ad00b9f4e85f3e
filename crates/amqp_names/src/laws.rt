//! Laws of the table of names, each the contract of a function that does nothing.

ghost use Rattle.std.specs.Prelude.{◌≡◌, length, map, true};
ghost use Rattle.std.specs.List.{list_all};
ghost use Rattle.amqp_names.specs.Names.{class_names, property_names};
ghost use Rattle.amqp_names.specs.Tables.{all_methods};
ghost use Rattle.amqp_names.specs.Laws.{all_rows, ascend, class_name, differ, fields_differ};
ghost use Rattle.amqp_names.specs.Laws.{has_answer, has_content, has_ok, ids_of, methods_differ};
ghost use Rattle.amqp_names.specs.Laws.{named_fields, opens, row_count, row_ids};

/// The methods that have names are those that have fields on the wire, each once and in the same order, and each has as
/// many names of fields as it has fields that are not reserved.
pub fn rows_are_named()
    ensures ids { map ids_of all_methods ≡ map row_ids all_rows }
    ensures fields { map named_fields all_methods ≡ map row_count all_rows }
    ensures ascending { ascend (map ids_of all_methods) ≡ true }
    ensures count { length all_methods ≡ 66 }
{}

/// The methods that carry content are those that open a message.
pub fn contents_follow()
    ensures { map has_content all_methods ≡ map opens all_methods }
{}

/// The methods that want an answer are those whose class has a method of the same name with `-ok` behind it.
pub fn answers_follow()
    ensures { map has_answer all_methods ≡ map has_ok all_methods }
{}

/// No two classes have one name, nor do two methods of a class, two fields of a method, or two properties.
pub fn names_differ()
    ensures classes { differ (map class_name class_names) ≡ true }
    ensures methods { list_all methods_differ class_names ≡ true }
    ensures fields { list_all fields_differ all_methods ≡ true }
    ensures properties { differ property_names ≡ true }
{}
