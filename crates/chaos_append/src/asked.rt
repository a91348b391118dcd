ghost use Rattle.std.specs.Prelude.{◌≡◌, ◌≤◌, ◌&&◌, map, string_bytes, option_map, IfSome};
ghost use Rattle.fd_spell.specs.Spelled.{is_name};
ghost use Rattle.chaos_append.specs.Asked.{asked_to_append, shown_asked};

use fd_spell::{is_name, number};

/// What the words ask for: so many steps of so many particles in so many bins, on so many nodes, and the files of
/// first bins and of values.
#[derive(Clone, Copy, Debug)]
pub struct Asked<'a> {
    pub(crate) bins: u32,
    pub(crate) steps: u32,
    pub(crate) count: u32,
    pub(crate) nodes: u32,
    pub(crate) bin_file: &'a str,
    pub(crate) value_file: &'a str,
}

/// Whether both words name files.
fn are_names(bin_file: &str, value_file: &str) -> bool
    ensures { result ≡ (is_name bin_file.now && is_name value_file.now) }
{
    is_name(bin_file) && is_name(value_file)
}

/// What the words ask for, if they are BINS, STEPS, COUNT, NODES, BINFILE and VALUEFILE: 1 to 65,536 bins, at most
/// 1,000 steps, 1 to 1,048,576 particles, 1 to 16 nodes.
pub(crate) fn asked_by<'a>(words: &'a [String]) -> Option<Asked<'a>>
    ensures asked { option_map shown_asked result ≡ asked_to_append (map string_bytes words.entry.now) }
    ensures fits { IfSome result (λ a. (1 ≤ a.bins) × (a.bins ≤ 65536) × (a.steps ≤ 1000) × (1 ≤ a.count) × (a.count ≤ 1048576)
        × (1 ≤ a.nodes) × (a.nodes ≤ 16)) }
{
    if words.len() != 6 {
        return None;
    }
    let [bins, steps, count, nodes, bin_file, value_file, ..] = words else {
        return None;
    };
    let bins = number(1, 65_536, bins.as_str())?;
    let steps = number(0, 1_000, steps.as_str())?;
    let count = number(1, 1_048_576, count.as_str())?;
    let nodes = number(1, 16, nodes.as_str())?;
    let bin_file = bin_file.as_str();
    let value_file = value_file.as_str();
    if are_names(bin_file, value_file) {
        Some(Asked {
            bins,
            steps,
            count,
            nodes,
            bin_file,
            value_file,
        })
    } else {
        None
    }
}
