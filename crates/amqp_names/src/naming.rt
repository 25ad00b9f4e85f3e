//! What is known of a method beside its encoding.

use amqp_types::Identifier;

/// What follows a method in its conversation.
#[derive(Clone, Copy, Debug, PartialEq, Eq)]
pub enum Follows {
    /// Nothing that belongs to it.
    Nothing,

    /// A content header and bodies.
    Content,

    /// A method of the peer that answers it.
    Answer,
}

/// A field of a method that is not reserved, each flag one; or a property.
#[derive(Clone, Copy, Debug)]
pub struct Field {
    /// In lower case, with hyphens.
    pub name: &'static str,

    /// One of the kinds from `OCTET`, 1, to `TABLE`, 8, as the kinds of nodes are numbered.
    pub kind: u8,
}

/// A method of a class.
#[derive(Clone, Copy, Debug)]
pub struct Method {
    /// The id in its class.
    pub id: Identifier,

    /// In lower case, with hyphens.
    pub name: &'static str,

    /// In the order in which they stand; the index is the place of a node.
    pub fields: &'static [Field],

    /// What follows it.
    pub follows: Follows,
}

/// A class, with its methods by ascending ids.
#[derive(Clone, Copy, Debug)]
pub struct Class {
    /// The id.
    pub id: Identifier,

    /// In lower case.
    pub name: &'static str,

    /// All of its methods.
    pub methods: &'static [Method],
}

/// A method with its class.
#[derive(Clone, Copy, Debug)]
pub struct MethodAt {
    /// The id of its class.
    pub class_id: Identifier,

    /// The method.
    pub method: Method,
}
