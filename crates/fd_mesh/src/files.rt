ghost use Rattle.std.specs.Prelude.{◌≡◌, [], ◌∷◌, ◌++◌, ◌<◌, ◌≤◌, ◌^◌, decimal, IfOk, OnOk};
ghost use Rattle.std.specs.List.{flat_map};
ghost use Rattle.fd_mesh.specs.Mesh.{lines_of, numbers_by, file_of, files_of};

use crate::rule::Rule;
use fd_words::{Bytes, Memory};
use itoa::Buffer;
use sqlite_items::Items;
use std::alloc::Global;

/// A file's name and its bytes.
#[derive(Debug, Drop)]
pub struct FileData {
    pub name: Bytes,
    pub content: Bytes,
}

pub type FileList = Items<FileData>;

/// The files `x.csv`, `m.csv`, `e1.csv` and `e2.csv`.
pub fn files_of(alloc: Global, seed: u64, size: u64) -> Result<FileList, Memory>
    requires seed_fits { seed < 2 ^ 32 }
    requires some { 0 < size }
    requires within { size ≤ 100000 }
    ensures { IfOk result (λ files. files ≡ files_of seed size) }
{
    let mut files = FileList::new(alloc);
    let values = file_by(alloc, b"x.csv", &[Rule::Place], seed, size)?;
    files.push(values)?;
    let map = file_by(alloc, b"m.csv", &[Rule::Mapped], seed, size)?;
    files.push(map)?;
    let begins = file_by(alloc, b"e1.csv", &[Rule::Place, Rule::Place], seed, size)?;
    files.push(begins)?;
    let ends = file_by(alloc, b"e2.csv", &[Rule::Ring, Rule::Chord], seed, size)?;
    files.push(ends)?;
    Ok(files)
}

/// The file with this name, and in it for each rule a line for each element.
fn file_by(
    alloc: Global,
    name: &[u8],
    rules: &[Rule],
    seed: u64,
    size: u64,
) -> Result<FileData, Memory>
    requires seed_fits { seed < 2 ^ 32 }
    requires some { 0 < size }
    requires within { size ≤ 100000 }
    ensures { IfOk result (λ file. file ≡ file_of name.now (flat_map (λ rule. numbers_by rule seed size) rules.now)) }
{
    let mut own_name = Bytes::new(alloc);
    own_name.append(name)?;
    let mut content = Bytes::new(alloc);
    for rule in rules {
        append_lines(&mut content, *rule, seed, size)?;
    }
    Ok(FileData {
        name: own_name,
        content,
    })
}

/// Appends a line for each element.
fn append_lines(text: &mut Bytes, rule: Rule, seed: u64, size: u64) -> Result<(), Memory>
    requires seed_fits { seed < 2 ^ 32 }
    requires some { 0 < size }
    requires within { size ≤ 100000 }
    ensures { OnOk result (text.new ≡ text.old ++ lines_of (numbers_by rule seed size)) }
{
    for before in 0..size {
        let number = rule.number(seed, size, before + 1);
        append_line(text, number)?;
    }
    Ok(())
}

fn append_line(text: &mut Bytes, number: u64) -> Result<(), Memory>
    ensures { OnOk result (text.new ≡ text.old ++ (decimal number ++ 10 ∷ [])) }
{
    let mut buffer = Buffer::new();
    text.append(buffer.format(number).as_bytes())?;
    text.push(b'\n')
}
