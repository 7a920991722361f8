//! The files of a disk in memory, those of log segments by their base offset.

ghost use Rattle.std.specs.Prelude.{◌≡◌, ◌≢◌, ◌++◌, ℕ, map, None, Some, IfOk, OnOk, OnErr, option_map};
ghost use Rattle.std.specs.Ordering.{nat_cmp};
ghost use Rattle.std.specs.BTreeMap.{get, keys};
ghost use Rattle.std.specs.List.Sorted.{IsStrictlySortedBy};
ghost use Rattle.tier_base.specs.declared.plain.FileName.TheVariants.{Log};
ghost use Rattle.tier_base.specs.Told.{replaced, removed};
ghost use Rattle.disk_model.specs.Content.{appended, cut_to, part_of};
ghost use Rattle.disk_model.specs.FileBytes.{all_of, safe_of, bytes_at, safe_at};
ghost use Rattle.disk_model.specs.Shelf.{made, files_on, names_on, safe_on, Becomes, IsFileFront};

use crate::file::{drop_unsynced, extend, read, settle, shorten};
use crate::file_bytes::FileBytes;
use bytes::Bytes;
use std::alloc::{AllocError, Global};
use std::collections::BTreeMap;
use tier_base::{FileName, Items};

/// The files.
#[derive(Drop)]
pub struct Shelf {
    manifest: Option<FileBytes>,
    logs: BTreeMap<u64, FileBytes>,
    notes: Option<FileBytes>,
    gate: Option<FileBytes>,
    registry: Option<FileBytes>,
}

impl Shelf {
    /// Makes a shelf with no files, without memory.
    pub fn new(alloc: Global) -> Shelf
        ensures files { (n : _) → files_on result n ≡ None }
        ensures safe { (n : _) → safe_on result n ≡ None }
    {
        Shelf {
            manifest: None,
            logs: BTreeMap::new(alloc),
            notes: None,
            gate: None,
            registry: None,
        }
    }

    /// Adds bytes at a file's end. An absent file is made of them.
    pub fn append(&mut self, alloc: Global, name: FileName, bytes: Bytes) -> Result<(), AllocError>
        ensures ok { OnOk result
            (Becomes name (appended bytes) (files_on self.old) (files_on self.new)) }
        ensures safe { OnOk result (Becomes name made (safe_on self.old) (safe_on self.new)) }
        ensures err { OnErr result ((n : _) → files_on self.new n ≡ files_on self.old n) }
        ensures safe_err { OnErr result ((n : _) → safe_on self.new n ≡ safe_on self.old n) }
    {
        match name {
            FileName::Manifest => append_to(alloc, &mut self.manifest, bytes),
            FileName::Log(base) => append_at(alloc, &mut self.logs, base, bytes),
            FileName::Notes => append_to(alloc, &mut self.notes, bytes),
            FileName::Gate => append_to(alloc, &mut self.gate, bytes),
            FileName::Registry => append_to(alloc, &mut self.registry, bytes),
        }
    }

    /// Cuts a file.
    pub fn cut(&mut self, name: FileName, len: usize)
        ensures files { Becomes name (cut_to len) (files_on self.old) (files_on self.new) }
        ensures safe { Becomes name (cut_to len) (safe_on self.old) (safe_on self.new) }
    {
        match name {
            FileName::Manifest => cut_slot(&mut self.manifest, len),
            FileName::Log(base) => cut_at(&mut self.logs, base, len),
            FileName::Notes => cut_slot(&mut self.notes, len),
            FileName::Gate => cut_slot(&mut self.gate, len),
            FileName::Registry => cut_slot(&mut self.registry, len),
        }
    }

    /// Puts a file in the place of an old one.
    pub fn put(&mut self, alloc: Global, name: FileName, bytes: Bytes) -> Result<(), AllocError>
        ensures ok { OnOk result
            (Becomes name (replaced bytes) (files_on self.old) (files_on self.new)) }
        ensures safe { OnOk result
            (Becomes name (replaced bytes) (safe_on self.old) (safe_on self.new)) }
        ensures err { OnErr result ((n : _) → files_on self.new n ≡ files_on self.old n) }
        ensures safe_err { OnErr result ((n : _) → safe_on self.new n ≡ safe_on self.old n) }
    {
        let held = FileBytes::synced(alloc, bytes)?;
        match name {
            FileName::Manifest => self.manifest = Some(held),
            FileName::Log(base) => put_at(&mut self.logs, base, held)?,
            FileName::Notes => self.notes = Some(held),
            FileName::Gate => self.gate = Some(held),
            FileName::Registry => self.registry = Some(held),
        }
        Ok(())
    }

    /// Lends bytes with which a file begins: all of one that was put. Of a log segment none are lent, which is never
    /// replaced.
    pub fn front(&self, name: FileName) -> &[u8]
        ensures { IsFileFront result.now (files_on self.now name) }
    {
        match name {
            FileName::Manifest => front_in(&self.manifest),
            FileName::Log(_) => &[],
            FileName::Notes => front_in(&self.notes),
            FileName::Gate => front_in(&self.gate),
            FileName::Registry => front_in(&self.registry),
        }
    }

    /// Counts all bytes of a file as synced.
    pub fn sync(&mut self, name: FileName)
        ensures files { (n : _) → files_on self.new n ≡ files_on self.old n }
        ensures there { safe_on self.new name ≡ files_on self.old name }
        ensures others { (n : _) → n ≢ name → safe_on self.new n ≡ safe_on self.old n }
    {
        match name {
            FileName::Manifest => sync_slot(&mut self.manifest),
            FileName::Log(base) => sync_at(&mut self.logs, base),
            FileName::Notes => sync_slot(&mut self.notes),
            FileName::Gate => sync_slot(&mut self.gate),
            FileName::Registry => sync_slot(&mut self.registry),
        }
    }

    /// Drops what isn't synced.
    pub fn crash(&mut self)
        ensures files { (n : _) → files_on self.new n ≡ safe_on self.old n }
        ensures safe { (n : _) → safe_on self.new n ≡ safe_on self.old n }
    {
        crash_slot(&mut self.manifest);
        crash_all(&mut self.logs);
        crash_slot(&mut self.notes);
        crash_slot(&mut self.gate);
        crash_slot(&mut self.registry);
    }

    /// Removes a file.
    pub fn remove(&mut self, name: FileName)
        ensures files { Becomes name removed (files_on self.old) (files_on self.new) }
        ensures safe { Becomes name removed (safe_on self.old) (safe_on self.new) }
    {
        match name {
            FileName::Manifest => self.manifest = None,
            FileName::Log(base) => remove_at(&mut self.logs, base),
            FileName::Notes => self.notes = None,
            FileName::Gate => self.gate = None,
            FileName::Registry => self.registry = None,
        }
    }

    /// Names the files: log segments by their base offset, then the others.
    pub fn names(&self, alloc: Global) -> Result<Items<FileName>, AllocError>
        ensures names { IfOk result (λ names. names ≡ names_on self.now) }
        ensures sorted { OnOk result (IsStrictlySortedBy nat_cmp (keys self.now.logs)) }
    {
        let mut names = log_names(alloc, &self.logs)?;
        if self.manifest.is_some() {
            names.push(FileName::Manifest)?;
        }
        if self.notes.is_some() {
            names.push(FileName::Notes)?;
        }
        if self.gate.is_some() {
            names.push(FileName::Gate)?;
        }
        if self.registry.is_some() {
            names.push(FileName::Registry)?;
        }
        Ok(names)
    }

    /// Gives so many bytes of a file from a place on, and fewer only where it ends.
    pub fn read(
        &mut self,
        alloc: Global,
        name: FileName,
        at: usize,
        most: usize,
    ) -> Result<Option<Bytes>, AllocError>
        ensures bytes { IfOk result (λ bytes. bytes
            ≡ option_map (part_of at most) (files_on self.old name)) }
        ensures files { (n : _) → files_on self.new n ≡ files_on self.old n }
        ensures safe { (n : _) → safe_on self.new n ≡ safe_on self.old n }
    {
        match name {
            FileName::Manifest => read_slot(alloc, &mut self.manifest, at, most),
            FileName::Log(base) => read_at(alloc, &mut self.logs, base, at, most),
            FileName::Notes => read_slot(alloc, &mut self.notes, at, most),
            FileName::Gate => read_slot(alloc, &mut self.gate, at, most),
            FileName::Registry => read_slot(alloc, &mut self.registry, at, most),
        }
    }
}

fn append_to(alloc: Global, slot: &mut Option<FileBytes>, bytes: Bytes) -> Result<(), AllocError>
    ensures ok { OnOk result (bytes_at slot.new ≡ appended bytes (bytes_at slot.old)) }
    ensures safe { OnOk result (safe_at slot.new ≡ made (safe_at slot.old)) }
    ensures err { OnErr result (bytes_at slot.new ≡ bytes_at slot.old) }
    ensures safe_err { OnErr result (safe_at slot.new ≡ safe_at slot.old) }
{
    match slot {
        Some(held) => extend(held, bytes),
        None => {
            *slot = Some(FileBytes::unsynced(alloc, bytes)?);
            Ok(())
        }
    }
}

fn append_at(
    alloc: Global,
    logs: &mut BTreeMap<u64, FileBytes>,
    base: u64,
    bytes: Bytes,
) -> Result<(), AllocError>
    ensures there { OnOk result (bytes_at (get nat_cmp logs.new base)
        ≡ appended bytes (bytes_at (get nat_cmp logs.old base))) }
    ensures safe { OnOk result (safe_at (get nat_cmp logs.new base)
        ≡ made (safe_at (get nat_cmp logs.old base))) }
    ensures others { (q : ℕ) → q ≢ base → get nat_cmp logs.new q ≡ get nat_cmp logs.old q }
    ensures err { OnErr result ((q : ℕ)
        → bytes_at (get nat_cmp logs.new q) ≡ bytes_at (get nat_cmp logs.old q)) }
    ensures safe_err { OnErr result ((q : ℕ)
        → safe_at (get nat_cmp logs.new q) ≡ safe_at (get nat_cmp logs.old q)) }
{
    match logs.get_mut(&base) {
        Some(held) => extend(held, bytes),
        None => {
            logs.insert(base, FileBytes::unsynced(alloc, bytes)?)?;
            Ok(())
        }
    }
}

fn cut_slot(slot: &mut Option<FileBytes>, len: usize)
    ensures bytes { bytes_at slot.new ≡ cut_to len (bytes_at slot.old) }
    ensures safe { safe_at slot.new ≡ cut_to len (safe_at slot.old) }
{
    if let Some(held) = slot {
        shorten(held, len);
    }
}

fn cut_at(logs: &mut BTreeMap<u64, FileBytes>, base: u64, len: usize)
    ensures there { bytes_at (get nat_cmp logs.new base)
        ≡ cut_to len (bytes_at (get nat_cmp logs.old base)) }
    ensures safe { safe_at (get nat_cmp logs.new base)
        ≡ cut_to len (safe_at (get nat_cmp logs.old base)) }
    ensures others { (q : ℕ) → q ≢ base → get nat_cmp logs.new q ≡ get nat_cmp logs.old q }
{
    if let Some(held) = logs.get_mut(&base) {
        shorten(held, len);
    }
}

fn front_in(slot: &Option<FileBytes>) -> &[u8]
    ensures { IsFileFront result.now (bytes_at slot.now) }
{
    match slot {
        Some(held) => held.bytes.front(),
        None => &[],
    }
}

fn sync_slot(slot: &mut Option<FileBytes>)
    ensures bytes { bytes_at slot.new ≡ bytes_at slot.old }
    ensures safe { safe_at slot.new ≡ bytes_at slot.old }
{
    if let Some(held) = slot {
        settle(held);
    }
}

fn sync_at(logs: &mut BTreeMap<u64, FileBytes>, base: u64)
    ensures bytes { bytes_at (get nat_cmp logs.new base) ≡ bytes_at (get nat_cmp logs.old base) }
    ensures safe { safe_at (get nat_cmp logs.new base) ≡ bytes_at (get nat_cmp logs.old base) }
    ensures others { (q : ℕ) → q ≢ base → get nat_cmp logs.new q ≡ get nat_cmp logs.old q }
{
    if let Some(held) = logs.get_mut(&base) {
        settle(held);
    }
}

fn crash_slot(slot: &mut Option<FileBytes>)
    ensures bytes { bytes_at slot.new ≡ safe_at slot.old }
    ensures safe { safe_at slot.new ≡ safe_at slot.old }
{
    if let Some(held) = slot {
        drop_unsynced(held);
    }
}

fn crash_all(logs: &mut BTreeMap<u64, FileBytes>)
    ensures bytes { (q : ℕ)
        → bytes_at (get nat_cmp logs.new q) ≡ safe_at (get nat_cmp logs.old q) }
    ensures safe { (q : ℕ)
        → safe_at (get nat_cmp logs.new q) ≡ safe_at (get nat_cmp logs.old q) }
{
    logs.retain(|_, held| {
        drop_unsynced(held);
        true
    });
}

fn put_at(logs: &mut BTreeMap<u64, FileBytes>, base: u64, held: FileBytes) -> Result<(), AllocError>
    ensures there { OnOk result (get nat_cmp logs.new base ≡ Some held) }
    ensures others { (q : ℕ) → q ≢ base → get nat_cmp logs.new q ≡ get nat_cmp logs.old q }
    ensures err { OnErr result ((q : ℕ) → get nat_cmp logs.new q ≡ get nat_cmp logs.old q) }
{
    logs.insert(base, held)?;
    Ok(())
}

fn remove_at(logs: &mut BTreeMap<u64, FileBytes>, base: u64)
    ensures there { get nat_cmp logs.new base ≡ None }
    ensures others { (q : ℕ) → q ≢ base → get nat_cmp logs.new q ≡ get nat_cmp logs.old q }
{
    logs.remove(&base);
}

fn read_slot(
    alloc: Global,
    slot: &mut Option<FileBytes>,
    at: usize,
    most: usize,
) -> Result<Option<Bytes>, AllocError>
    ensures part { IfOk result (λ bytes. bytes
        ≡ option_map (part_of at most) (bytes_at slot.old)) }
    ensures bytes { bytes_at slot.new ≡ bytes_at slot.old }
    ensures safe { safe_at slot.new ≡ safe_at slot.old }
{
    match slot {
        Some(held) => Ok(Some(read(alloc, held, at, most)?)),
        None => Ok(None),
    }
}

fn read_at(
    alloc: Global,
    logs: &mut BTreeMap<u64, FileBytes>,
    base: u64,
    at: usize,
    most: usize,
) -> Result<Option<Bytes>, AllocError>
    ensures part { IfOk result (λ bytes. bytes
        ≡ option_map (part_of at most) (bytes_at (get nat_cmp logs.old base))) }
    ensures bytes { (q : ℕ)
        → bytes_at (get nat_cmp logs.new q) ≡ bytes_at (get nat_cmp logs.old q) }
    ensures safe { (q : ℕ)
        → safe_at (get nat_cmp logs.new q) ≡ safe_at (get nat_cmp logs.old q) }
{
    match logs.get_mut(&base) {
        Some(held) => Ok(Some(read(alloc, held, at, most)?)),
        None => Ok(None),
    }
}

fn log_names(alloc: Global, logs: &BTreeMap<u64, FileBytes>) -> Result<Items<FileName>, AllocError>
    ensures names { IfOk result (λ names. names ≡ map Log (keys logs.now)) }
    ensures sorted { OnOk result (IsStrictlySortedBy nat_cmp (keys logs.now)) }
{
    let mut names = Items::new(alloc);
    for base in logs.keys() {
        names.push(FileName::Log(*base))?;
    }
    Ok(names)
}
