// A case, and how it is read.
ghost use Rattle.std.specs.Prelude.{◌≡◌, ℕ, ◌≤◌, ◌<◌, ◌++◌, ◌∷◌, List, length, map, codes, string_bytes, IfOk, IfErr, IfNone, OnOk, []};
ghost use Rattle.case_tables.specs.CaseTexts.{Piece, WrittenFile, WrittenCase, IsCase, IsLine, AreFiles, words_text, files_text, loads_text, puts_text, calls_text, wanted_text, case_text, pieces_bytes, stored_files};
ghost use Rattle.case_tables.specs.TableFaults.{IsWrongAt, Lacks, LacksEntry};

use crate::fault::TableFault;
use crate::table::Table;
use rb_base::{MemoryShelf, MemorySink};
use std::alloc::Global;

/// A call, and what is wanted of it.
#[derive(Drop)]
pub struct Case<'t> {
    /// The name of the case.
    pub name: &'t str,
    /// The words of the command line.
    pub words: Vec<String>,
    /// The files.
    pub shelf: MemoryShelf,
    /// The output.
    pub sink: MemorySink,
    /// What is wanted.
    pub wanted: Wanted,
}

/// What is wanted of a call.
#[derive(Drop)]
pub struct Wanted {
    /// The number of the status.
    pub status: u32,
    /// The bytes that are sent.
    pub sent: Vec<u8>,
    /// How many puts are called, if that is asked.
    pub puts: Option<u32>,
}

impl<'t> Case<'t> {
    /// Reads the case that stands next.
    pub fn read(alloc: Global, table: &mut Table<'t>) -> Result<Case<'t>, TableFault>
        ensures ok { IfOk result (λ case. (w : WrittenCase) × (table.old.rest.now ≡ case_text w ++ table.new.rest.now) × IsCase w case × IfNone w.calls (LacksEntry table.new.rest.now)) }
        ensures wrong { IfErr result (λ fault. IsWrongAt fault table.new.rest.now) }
        ensures less { OnOk result (length table.new.rest.now < length table.old.rest.now) }
    {
        let name = name_of(table)?;
        let words = read_words(alloc, table)?;
        let mut shelf = read_files(alloc, table)?;
        read_failing_loads(table, &mut shelf)?;
        let sink = read_failing_puts(alloc, table)?;
        let wanted = read_wanted(alloc, table)?;
        Ok(Case {
            name,
            words,
            shelf,
            sink,
            wanted,
        })
    }
}

/// Reads the line with which a case begins, and gives its name.
fn name_of<'t>(table: &mut Table<'t>) -> Result<&'t str, TableFault>
    ensures ok { IfOk result (λ name. table.old.rest.now ≡ codes "case " ++ (name.now ++ 10 ∷ table.new.rest.now)) }
    ensures name { IfOk result (λ name. IsLine name.now × (0 < length name.now)) }
    ensures wrong { IfErr result (λ fault. IsWrongAt fault table.new.rest.now) }
    ensures less { OnOk result (length table.new.rest.now < length table.old.rest.now) }
{
    table.want("case ", TableFault::Case)?;
    if table.rest.starts_with(b"\n") {
        return Err(TableFault::Name);
    }
    table.line()
}

/// Reads the words of a case.
fn read_words(alloc: Global, table: &mut Table<'_>) -> Result<Vec<String>, TableFault>
    ensures ok { IfOk result (λ words. table.old.rest.now ≡ words_text (map string_bytes words.items) ++ table.new.rest.now) }
    ensures wrong { IfErr result (λ fault. IsWrongAt fault table.new.rest.now) }
    ensures shorter { length table.new.rest.now ≤ length table.old.rest.now }
{
    let mut words = Vec::new(alloc);
    while table.skip("word ") {
        words.push(String::from_str(alloc, table.text()?)?)?;
    }
    Ok(words)
}

/// Reads the files of a case.
fn read_files(alloc: Global, table: &mut Table<'_>) -> Result<MemoryShelf, TableFault>
    ensures ok { IfOk result (λ shelf. (files : List WrittenFile) × (table.old.rest.now ≡ files_text files ++ table.new.rest.now) × AreFiles files
        × (shelf ≡ record { files = stored_files files; refusals = []; calls = 0; faults = 0; taken = 0 })) }
    ensures wrong { IfErr result (λ fault. IsWrongAt fault table.new.rest.now) }
    ensures shorter { length table.new.rest.now ≤ length table.old.rest.now }
{
    let mut shelf = MemoryShelf::new(alloc);
    while table.skip("file ") {
        let name = table.line()?;
        let mut bytes = Vec::new(alloc);
        table.pieces(&mut bytes)?;
        shelf.put_file(name, bytes.as_slice())?;
    }
    Ok(shelf)
}

/// Reads the loads of a case that fail.
fn read_failing_loads(table: &mut Table<'_>, shelf: &mut MemoryShelf) -> Result<(), TableFault>
    ensures ok { OnOk result ((loads : List ℕ) × (table.old.rest.now ≡ loads_text loads ++ table.new.rest.now)
        × (shelf.new ≡ record shelf.old { refusals = shelf.old.refusals ++ loads })) }
    ensures wrong { IfErr result (λ fault. IsWrongAt fault table.new.rest.now) }
    ensures shorter { length table.new.rest.now ≤ length table.old.rest.now }
{
    while table.skip("load ") {
        shelf.fail_load(u64::from(table.last_number()?))?;
    }
    Ok(())
}

/// Reads the puts of a case that fail.
fn read_failing_puts(alloc: Global, table: &mut Table<'_>) -> Result<MemorySink, TableFault>
    ensures ok { IfOk result (λ sink. table.old.rest.now ≡ puts_text sink.refusals ++ table.new.rest.now) }
    ensures fresh { IfOk result (λ sink. (sink.bytes ≡ []) × (sink.calls ≡ 0) × (sink.faults ≡ 0)) }
    ensures wrong { IfErr result (λ fault. IsWrongAt fault table.new.rest.now) }
    ensures shorter { length table.new.rest.now ≤ length table.old.rest.now }
{
    let mut sink = MemorySink::new(alloc);
    while table.skip("put ") {
        let call = table.first_number()?;
        let taken = table.last_number()?;
        sink.fail_put(u64::from(call), taken as usize)?;
    }
    Ok(sink)
}

/// Reads what is wanted of a case.
fn read_wanted(alloc: Global, table: &mut Table<'_>) -> Result<Wanted, TableFault>
    ensures ok { IfOk result (λ wanted. (sent : List Piece) × (table.old.rest.now ≡ wanted_text wanted.status sent wanted.puts ++ table.new.rest.now)
        × (wanted.sent.items ≡ pieces_bytes sent) × IfNone wanted.puts (LacksEntry table.new.rest.now)) }
    ensures wrong { IfErr result (λ fault. IsWrongAt fault table.new.rest.now) }
    ensures shorter { length table.new.rest.now ≤ length table.old.rest.now }
{
    table.want("status ", TableFault::Status)?;
    let status = table.last_number()?;
    table.want("sent\n", TableFault::Sent)?;
    let mut sent = Vec::new(alloc);
    table.pieces(&mut sent)?;
    let puts = read_puts(table)?;
    Ok(Wanted { status, sent, puts })
}

/// Reads how many puts are to be called, if that is asked.
fn read_puts(table: &mut Table<'_>) -> Result<Option<u32>, TableFault>
    ensures ok { IfOk result (λ puts. table.old.rest.now ≡ calls_text puts ++ table.new.rest.now) }
    ensures end { IfOk result (λ puts. IfNone puts (Lacks (codes "puts ") table.new.rest.now)) }
    ensures wrong { IfErr result (λ fault. IsWrongAt fault table.new.rest.now) }
    ensures shorter { length table.new.rest.now ≤ length table.old.rest.now }
{
    if table.skip("puts ") {
        Ok(Some(table.last_number()?))
    } else {
        Ok(None)
    }
}
