ghost use Rattle.std.specs.Prelude.{◌≡◌, ◌≤◌, length, map, string_bytes, option_map, IfSome};
ghost use Rattle.std.specs.List.{list_all};
ghost use Rattle.fd_spell.specs.Spelled.{is_name};
ghost use Rattle.chaos_rcb.specs.Asked.{are_files, asked_to_bisect, shown_asked};

use fd_spell::{is_name, number};

/// What the words ask for: so many parts of so many elements, on so many nodes, and a file of coordinates for each axis.
#[derive(Clone, Copy, Debug)]
pub struct Asked<'a> {
    pub(crate) parts: u32,
    pub(crate) count: u32,
    pub(crate) nodes: u32,
    pub(crate) files: &'a [String],
}

/// Whether all words name files.
fn are_names(words: &[String]) -> bool
    ensures { result ≡ list_all is_name (map string_bytes words.now) }
{
    let mut rest = words;
    while let Some((first, after)) = rest.split_first() {
        if !is_name(first.as_str()) {
            return false;
        }
        rest = after;
    }
    true
}

/// Whether there are one to three words, which name files.
fn are_files(words: &[String]) -> bool
    ensures { result ≡ are_files (map string_bytes words.now) }
{
    1 <= words.len() && words.len() <= 3 && are_names(words)
}

/// What the words ask for, if they are PARTS, COUNT, NODES and one to three files: 1 to 64 parts and not more than
/// elements, 1 to 1,048,576 elements, 1 to 16 nodes.
pub(crate) fn asked_by<'a>(words: &'a [String]) -> Option<Asked<'a>>
    ensures asked { option_map shown_asked result ≡ asked_to_bisect (map string_bytes words.entry.now) }
    ensures fits { IfSome result (λ a. (1 ≤ a.parts) × (a.parts ≤ 64) × (a.parts ≤ a.count) × (a.count ≤ 1048576) × (1 ≤ a.nodes)
        × (a.nodes ≤ 16) × (1 ≤ length a.files.now) × (length a.files.now ≤ 3)) }
{
    let [parts, count, nodes, files @ ..] = words else {
        return None;
    };
    let parts = number(1, 64, parts.as_str())?;
    let count = number(1, 1_048_576, count.as_str())?;
    let nodes = number(1, 16, nodes.as_str())?;
    if parts <= count && are_files(files) {
        Some(Asked {
            parts,
            count,
            nodes,
            files,
        })
    } else {
        None
    }
}
