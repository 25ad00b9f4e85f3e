//! The protocol's name, version and port.

use amqp_types::{LongUInt, ShortShortUInt};

/// The protocol's name.
pub const NAME: &str = "AMQP";

/// The first part of the version.
pub const MAJOR_VERSION: ShortShortUInt = 0;

/// The second part of the version.
pub const MINOR_VERSION: ShortShortUInt = 9;

/// The third part of the version.
pub const REVISION: ShortShortUInt = 1;

/// The TCP port that servers listen at.
pub const PORT: LongUInt = 5672;
