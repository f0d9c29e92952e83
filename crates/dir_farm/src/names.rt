//! What a shelf knows of its names.

ghost use Rattle.std.specs.Prelude.{◌≡◌, Some, None, OnOk, OnErr, is_some, true, ℕ};
ghost use Rattle.dir_farm.specs.DirShelf.{known_at, is_out, Sets, Stays};
ghost use Rattle.dir_farm.specs.declared.names.Known.TheVariants.{Out};

use crate::dir_file::FileCounts;
use std::alloc::AllocError;
use std::collections::BTreeMap;

/// What is known of a name: there is a file; it is handed out; or it was taken back, with these counts.
#[derive(Clone, Copy, Debug, PartialEq, Eq)]
pub enum Known {
    There,
    Out,
    Back(FileCounts),
}

/// The names that were seen, ascending.
pub(crate) type Names = BTreeMap<u64, Known>;

/// Whether something is known of the name.
pub(crate) fn is_known(names: &Names, name: u64) -> bool
    ensures { result ≡ is_some (known_at names.now.entries name) }
{
    names.contains_key(&name)
}

/// Notes this of a name of which nothing is known.
pub(crate) fn add(names: &mut Names, name: u64, state: Known) -> Result<(), AllocError>
    requires { known_at names.old.entries name ≡ None }
    ensures added { OnOk result (Sets name (Some state) names.old.entries names.new.entries) }
    ensures same { OnErr result (names.new.entries ≡ names.old.entries) }
{
    names.insert(name, state)?;
    Ok(())
}

/// Notes this of a name that is known.
pub(crate) fn set(names: &mut Names, name: u64, state: Known)
    requires { is_some (known_at names.old.entries name) ≡ true }
    ensures { Sets name (Some state) names.old.entries names.new.entries }
{
    match names.get_mut(&name) {
        Some(known) => *known = state,
        None => unreachable!(),
    }
}

/// Notes that the file of the name is handed out.
pub(crate) fn set_out(names: &mut Names, name: u64) -> Result<(), AllocError>
    ensures out { OnOk result (Sets name (Some Out) names.old.entries names.new.entries) }
    ensures same { OnErr result (names.new.entries ≡ names.old.entries) }
{
    if !is_known(names, name) {
        return add(names, name, Known::Out);
    }
    set(names, name, Known::Out);
    Ok(())
}

/// Forgets what is known of a name.
pub(crate) fn forget(names: &mut Names, name: u64)
    ensures { Sets name None names.old.entries names.new.entries }
{
    let _ = names.remove(&name);
}

/// Notes that there is a file of the name, where nothing is known of it.
fn note(names: &mut Names, name: u64) -> Result<(), AllocError>
    ensures { Stays names.old.entries names.new.entries }
{
    if is_known(names, name) {
        return Ok(());
    }
    add(names, name, Known::There)
}

/// Notes that there are files of these names.
pub(crate) fn note_all(names: &mut Names, listing: &[u64]) -> Result<(), AllocError>
    ensures { Stays names.old.entries names.new.entries }
{
    for name in listing {
        note(names, *name)?;
    }
    Ok(())
}
