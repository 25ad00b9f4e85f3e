//! Laws of what C calls, each the contract of a function that does nothing.

ghost use Rattle.amqp_c.specs.Recutting.{BodiesAreCutAsOne};
ghost use Rattle.amqp_c.specs.Rewriting.{FaultsStay, LittleIsLeft, PiecesAreWhole};
ghost use Rattle.amqp_c.specs.Rules.{NumbersDecideAlike};

/// Bytes that are fed in pieces, with what was left in front of the next piece, give what one call gives for them all.
pub fn pieces_are_whole()
    ensures { PiecesAreWhole }
{}

/// A fault stays, whatever follows.
pub fn faults_stay()
    ensures { FaultsStay }
{}

/// Where more bytes are needed, fewer are left than a frame of the largest size has.
pub fn little_is_left()
    ensures { LittleIsLeft }
{}

/// Rules by their numbers decide as the rules do.
pub fn numbers_decide_alike()
    ensures { NumbersDecideAlike }
{}

/// Pieces that are cut body after body, with what is left held for the next, are those of the whole body of the message.
pub fn bodies_are_cut_as_one()
    ensures { BodiesAreCutAsOne }
{}
