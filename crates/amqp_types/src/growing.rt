//! Making room at the end of a vector.

ghost use Rattle.std.specs.Prelude.{◌≡◌, ◌++◌, ◌≤◌, ◌+◌, replicate, vec_len, IfOk, IfErr};
ghost use Rattle.amqp_types.specs.declared.errors.GenError.TheVariants as gen_errors;

use crate::errors::GenError;

/// Makes room for `size` more bytes, which are zero, and returns where they begin. A length that `usize` does not hold
/// is out of memory too.
pub fn grow(out: &mut Vec<u8>, size: u64) -> Result<usize, GenError>
    ensures place { IfOk result (λ at. at ≡ vec_len out.old) }
    ensures grown { IfOk result (λ _. out.new.items ≡ out.old.items ++ replicate size 0) }
    ensures refused { IfErr result (λ error. error ≡ gen_errors.NoMemory) }
    ensures stays { IfErr result (λ _. out.new.items ≡ out.old.items) }
{
    let at = out.len();
    let Some(end) = at.checked_add(size as usize) else {
        return Err(GenError::NoMemory);
    };
    out.resize(end, 0)?;
    Ok(at)
}
