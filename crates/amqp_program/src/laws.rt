//! Laws of the program's texts, each as the contract of a function that does nothing.

ghost use Rattle.amqp_program.specs.HexLaws.{EqualHexIsEqualBytes, EqualOutputIsEqualFrames};

/// Bytes whose lower-case hex is equal are equal: two inputs for which `hex` prints one text have the same canonical
/// bytes.
#[tactic(auto, using(crate::proofs::HexApart::equal_hex))]
pub fn equal_hex_is_equal_bytes()
    ensures { EqualHexIsEqualBytes }
{}

/// What `hex` or `tidy` writes for two texts that it accepts is equal exactly where they encode the same frames.
pub fn equal_output_is_equal_frames()
    ensures { EqualOutputIsEqualFrames }
{}
