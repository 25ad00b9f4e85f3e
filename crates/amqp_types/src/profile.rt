//! How closely input has to keep to the canonical encoding.

/// Which encodings a reader accepts.
#[derive(Clone, Copy, Debug, PartialEq, Eq)]
pub enum Profile {
    /// Every encoding of the grammar in docs/FORMAT.md, the ones that peers really send.
    Plain,

    /// Only encodings in which all that is dropped is as in the canonical encoding: reserved fields, unused bits, the
    /// weight of a header and the payload of a heartbeat.
    Tidy,
}
