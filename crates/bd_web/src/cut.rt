//! Bytes cut into parts.
ghost use Rattle.std.specs.Prelude.{◌≡◌, ◌≢◌, ◌⊎◌, length, map, IfOk, IfErr, IsErrOf};
ghost use Rattle.std.specs.List.{sum};
ghost use Rattle.bd_web.specs.Handed.{AreParts};

use crate::fault::Fault;
use std::alloc::Global;

/// The parts of these lengths that the bytes are.
#[tactic(auto, using(crate::proofs::Parts::parts))]
pub fn cut<'a>(alloc: Global, bytes: &'a [u8], lengths: &[usize]) -> Result<Vec<&'a [u8]>, Fault>
    ensures parts { IfOk result (λ parts.
        AreParts bytes.now lengths.now (map (λ part. part.now) parts.items)) }
    ensures not_parts { IsErrOf result Fault.NotParts → sum lengths.now ≢ length bytes.now }
    ensures fault { IfErr result (λ fault. (fault ≡ Fault.NotParts) ⊎ (fault ≡ Fault.Memory)) }
{
    let mut parts = Vec::new(alloc);
    let mut rest = bytes;
    for length in lengths {
        let Some((part, after)) = rest.split_at_checked(*length) else {
            return Err(Fault::NotParts);
        };
        parts.push(part).map_err(|_| Fault::Memory)?;
        rest = after;
    }
    if rest.is_empty() {
        Ok(parts)
    } else {
        Err(Fault::NotParts)
    }
}
