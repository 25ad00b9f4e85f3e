//! Laws of names, each the contract of a function that does nothing.

ghost use Rattle.amqp_named_lines.specs.Laws.{ClassesAreNamed};

/// What `name` says of a typed method's class is the name that the table has for the id of the class.
pub fn classes_are_named()
    ensures { ClassesAreNamed }
{}
