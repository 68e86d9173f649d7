//! Text in several pieces, put without taking memory.
ghost use Rattle.std.specs.Prelude.{◌≤◌, OnOk, OnErr, flat_map, map};
ghost use Rattle.bd_files.specs.Devices.{Appends, AppendsPrefix, Rose};
ghost use Rattle.bd_files.specs.Pieces.{PutsEach};

use super::{PutError, Sink};

/// Puts the pieces one after another, each by one put. It stops at the first put that fails, so that
/// what was written is a prefix of the whole.
pub fn put_pieces<S: Sink>(sink: &mut S, pieces: &[&[u8]]) -> Result<(), PutError>
    ensures appended { OnOk result (let whole = flat_map (λ p. p.now) pieces.now in
        Appends (S.written sink.old) (S.written sink.new) whole) }
    ensures prefix { OnErr result (let whole = flat_map (λ p. p.now) pieces.now in
        AppendsPrefix (S.written sink.old) (S.written sink.new) whole) }
    ensures each { PutsEach S.written S.faults S.puts sink.old sink.new
        (map (λ p. p.now) pieces.now) }
    ensures never_falls { S.faults sink.old ≤ S.faults sink.new }
    ensures failed_rose { OnErr result (Rose (S.faults sink.old) (S.faults sink.new)) }
{
    for piece in pieces {
        sink.put(piece)?;
    }
    Ok(())
}
