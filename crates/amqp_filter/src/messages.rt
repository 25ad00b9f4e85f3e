//! What is kept of a message that is not complete.

ghost use Rattle.std.specs.Prelude.{◌≡◌};
ghost use Rattle.amqp_filter.specs.Held.{progress_in, kept_in, held_with};

use amqp_turns::Progress;

/// A message that is not complete.
#[derive(Clone, Copy)]
pub(crate) struct Open {
    /// How far it has come.
    pub(crate) progress: Progress,

    /// Whether it is kept, as was decided at its opening.
    pub(crate) kept: bool,
}

/// How far the message of a channel has come.
#[inline(always)]
pub(crate) fn progress_of(message: Option<Open>) -> Option<Progress>
    ensures { result ≡ progress_in message }
{
    match message {
        Some(message) => Some(message.progress),
        None => None,
    }
}

/// Whether the message of a channel is kept.
#[inline(always)]
pub(crate) fn is_kept(message: Option<Open>) -> bool
    ensures { result ≡ kept_in message }
{
    match message {
        Some(message) => message.kept,
        None => false,
    }
}

/// What is kept of a message that has come so far: nothing, where it is complete.
#[inline(always)]
pub(crate) fn message_with(progress: Option<Progress>, kept: bool) -> Option<Open>
    ensures { result ≡ held_with progress kept }
{
    match progress {
        Some(progress) => Some(Open { progress, kept }),
        None => None,
    }
}
