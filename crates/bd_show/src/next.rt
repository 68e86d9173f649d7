//! The command that goes on from a case or a trail that is saved.
ghost use Rattle.std.specs.Prelude.{◌≡◌, ◌++◌, ◌∷◌, OnOk};
ghost use Rattle.bd_app.specs.Words.{given};
ghost use Rattle.bd_show.specs.Files.{names_of};
ghost use Rattle.bd_show.specs.Next.{goes_on, next_line, spaced_if};

use crate::load::FileNames;
use bd_about::Finding;
use std::alloc::AllocError;

/// Puts a name after a space.
fn push_spaced(text: &mut Vec<u8>, name: &str) -> Result<(), AllocError>
    ensures { OnOk result (text.new.items ≡ text.old.items ++ 32 ∷ name.now) }
{
    text.push(b' ')?;
    text.extend_from_slice(name.as_bytes())
}

/// Puts a name after a space, where one is given.
fn push_spaced_if(text: &mut Vec<u8>, name: Option<&str>) -> Result<(), AllocError>
    ensures { OnOk result (text.new.items ≡ text.old.items ++ spaced_if (given name.entry)) }
{
    match name {
        Some(name) => push_spaced(text, name),
        None => Ok(()),
    }
}

/// Puts an empty line, and the line of this command on what is saved under a name.
fn push_line(
    text: &mut Vec<u8>,
    command: &str,
    names: FileNames<'_>,
    saved: &str,
) -> Result<(), AllocError>
    ensures { OnOk result (text.new.items
        ≡ text.old.items ++ next_line command.now (names_of names.entry) saved.now) }
{
    text.extend_from_slice(b"\nnext: bd_view")?;
    push_spaced(text, command)?;
    push_spaced(text, names.pipe)?;
    push_spaced(text, names.spec)?;
    push_spaced(text, saved)?;
    push_spaced_if(text, names.inv)?;
    text.extend_from_slice(b"\n")?;
    Ok(())
}

/// Puts the command that goes on from what is saved, where something is.
pub fn push_next(
    text: &mut Vec<u8>,
    command: &str,
    names: FileNames<'_>,
    saved: Option<&str>,
    found: Finding,
) -> Result<(), AllocError>
    ensures { OnOk result (text.new.items ≡ text.old.items
        ++ goes_on command.now (names_of names.entry) (given saved.entry) found) }
{
    let Some(saved) = saved else {
        return Ok(());
    };
    match found {
        Finding::Wrong(_) => push_line(text, command, names, saved),
        Finding::Right | Finding::Void | Finding::Undecided => Ok(()),
    }
}
