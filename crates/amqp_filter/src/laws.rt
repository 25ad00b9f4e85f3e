//! Laws of filtering, each the contract of a function that does nothing.

ghost use Rattle.amqp_filter.specs.Laws.{UnitsAreKept, OthersAreKept, MessagesAreKept, StaysInTurn};
ghost use Rattle.amqp_filter.specs.Laws.{TwiceIsOnce, AllIsWritten, SelectsAlike};

/// Of the units of a channel, methods that stand alone and messages, those are left whose first frame rules keep, each whole
/// and in order, and of the frames outside of all content those that rules keep. So frames in turn are in turn after
/// filtering, and each channel's messages are those whose openings rules keep.
pub fn units_are_kept()
    ensures units { UnitsAreKept }
    ensures others { OthersAreKept }
    ensures turn { StaysInTurn }
    ensures messages { MessagesAreKept }
{}

/// Filtering twice by the same rules is filtering once.
pub fn twice_is_once()
    ensures { TwiceIsOnce }
{}

/// Where rules keep every frame, all is written as the canonicalizer writes it.
pub fn all_is_written()
    ensures { AllIsWritten }
{}

/// Where rules decide by channels alone, filtering keeps the frames that selecting keeps.
pub fn channels_select_alike()
    ensures { SelectsAlike }
{}
