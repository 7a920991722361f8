//! Calls of a disk in memory that are done or not, as its plan says. Where one isn't done it uses
//! its room all the same.

ghost use Rattle.std.specs.Prelude.{◌≡◌, ◌≤◌, if◌then◌else◌, take, option_map, IfOk, OnOk, OnErr};
ghost use Rattle.tier_base.specs.Told.{bytes_in};
ghost use Rattle.disk_model.specs.Steps.{Append, Sync, Cut, Replace, Remove};
ghost use Rattle.disk_model.specs.Kept.{attempts};

use crate::history::History;
use bytes::Bytes;
use std::alloc::AllocError;
use tier_base::FileName;

/// Appends, where that is to be done.
pub fn append_if(
    history: &mut History,
    name: FileName,
    bytes: &[u8],
    done: bool,
) -> Result<(), AllocError>
    ensures ok { OnOk result (history.new ≡ attempts done (Append name bytes.now) history.old) }
    ensures err { OnErr result (history.new ≡ history.old) }
{
    if done {
        history.append(name, bytes)
    } else {
        Ok(())
    }
}

/// Replaces a file, where that is to be done.
pub fn replace_if(
    history: &mut History,
    name: FileName,
    bytes: &[u8],
    sure: bool,
    done: bool,
) -> Result<(), AllocError>
    ensures ok { OnOk result
        (history.new ≡ attempts done (Replace name bytes.now sure) history.old) }
    ensures err { OnErr result (history.new ≡ history.old) }
{
    if done {
        history.replace(name, bytes, sure)
    } else {
        Ok(())
    }
}

/// Syncs a file, where that is to be done.
pub fn sync_if(history: &mut History, name: FileName, done: bool)
    requires { 1 ≤ history.old.spare }
    ensures { history.new ≡ attempts done (Sync name) history.old }
{
    if done {
        history.sync(name)
    } else {
        history.spend()
    }
}

/// Cuts a file, where that is to be done.
pub fn cut_if(history: &mut History, name: FileName, len: u64, done: bool)
    requires { 1 ≤ history.old.spare }
    ensures { history.new ≡ attempts done (Cut name len) history.old }
{
    if done {
        history.cut(name, len)
    } else {
        history.spend()
    }
}

/// Removes a file, where that is to be done.
pub fn remove_if(history: &mut History, name: FileName, done: bool)
    requires { 1 ≤ history.old.spare }
    ensures { history.new ≡ attempts done (Remove name) history.old }
{
    if done {
        history.remove(name)
    } else {
        history.spend()
    }
}

/// Shares the bytes that a read found.
pub fn share(file: &Option<Bytes>) -> Result<Bytes, AllocError>
    ensures { IfOk result (λ shared. shared ≡ bytes_in file.now) }
{
    match file {
        None => Ok(Bytes::new()),
        Some(bytes) => bytes.clone(),
    }
}

/// The first so many bytes of what a read found, which share its memory.
pub fn front_of(file: Option<Bytes>, most: usize) -> Option<Bytes>
    ensures { result ≡ option_map (take most) file }
{
    match file {
        None => None,
        Some(mut bytes) => {
            bytes.truncate(most);
            Some(bytes)
        }
    }
}

/// Records bytes as last read, if the call returns them.
pub fn hand(last_read: &mut Bytes, given: bool, bytes: Bytes)
    ensures { last_read.new ≡ (if given then bytes else last_read.old) }
{
    if given {
        *last_read = bytes;
    }
}
