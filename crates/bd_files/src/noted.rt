//! The calls that files in memory have noted.
ghost use Rattle.std.specs.Prelude.{◌≡◌, [], ◌∷◌, None, OnErr, IfOk};
ghost use Rattle.bd_files.specs.Devices.{Makes, loading, saving};
ghost use Rattle.bd_files.specs.Noted.{call_of, calls_of};

use std::alloc::{AllocError, Global};

/// A call that was noted.
#[derive(Drop)]
pub enum NotedCall {
    /// A load of a name, of at most so many bytes.
    Load(String, usize),
    /// A save of bytes under a name.
    Save(String, Vec<u8>),
}

/// The calls with one more. Where there is no memory for it, none are told from then on.
fn noted(
    calls: Option<Vec<NotedCall>>,
    call: Result<NotedCall, AllocError>,
) -> Option<Vec<NotedCall>>
    ensures called { IfOk call (λ c. Makes (calls_of calls) (calls_of result) (call_of c ∷ [])) }
    ensures untold { OnErr call (result ≡ None) }
{
    let mut calls = calls?;
    calls.push(call.ok()?).ok()?;
    Some(calls)
}

/// A load as a call that is noted.
fn load(alloc: Global, name: &str, most: usize) -> Result<NotedCall, AllocError>
    ensures { IfOk result (λ c. call_of c ≡ loading name.now most) }
{
    Ok(NotedCall::Load(String::from_str(alloc, name)?, most))
}

/// A save as a call that is noted.
fn save(alloc: Global, name: &str, bytes: &[u8]) -> Result<NotedCall, AllocError>
    ensures { IfOk result (λ c. call_of c ≡ saving name.now bytes.now) }
{
    let name = String::from_str(alloc, name)?;
    Ok(NotedCall::Save(name, Vec::from_slice(alloc, bytes)?))
}

/// Notes a load, if calls are still told.
pub(crate) fn note_load(alloc: Global, calls: &mut Option<Vec<NotedCall>>, name: &str, most: usize)
    ensures { Makes (calls_of calls.old) (calls_of calls.new) (loading name.now most ∷ []) }
{
    let call = load(alloc, name, most);
    *calls = noted(calls.take(), call);
}

/// Notes a save, if calls are still told.
pub(crate) fn note_save(alloc: Global, calls: &mut Option<Vec<NotedCall>>, name: &str, bytes: &[u8])
    ensures { Makes (calls_of calls.old) (calls_of calls.new) (saving name.now bytes.now ∷ []) }
{
    let call = save(alloc, name, bytes);
    *calls = noted(calls.take(), call);
}
