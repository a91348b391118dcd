ghost use Rattle.std.specs.Prelude.{◌≡◌, ◌≤◌, ◌-◌, ◌^◌, IfOk, IfSome, Bool, Err, None, Some, codes, map, option_map, string_bytes};
ghost use Rattle.std.specs.List.{list_all};
ghost use Rattle.clap.specs.Words.{found_of, one_of, rows_of};
ghost use Rattle.fd_command.specs.Asked.{asked, both, file_of, iterations_named, iterations_of, manner_of, nodes_of, origin_of, report_of};
ghost use Rattle.fd_command.specs.Asked.{turns_of};
ghost use Rattle.fd_spell.specs.Spelled.{number_in};
ghost use Rattle.fd_command.specs.declared.request.Turns.TheVariants as Turns;
ghost use Rattle.fd_command.specs.ClapCommand.{flag_text, is_clear};
ghost use Rattle.fd_command.specs.ClapRows.{manner_with, origin_by};
ghost use Rattle.fd_command.specs.Shown.{HasMeshInRange, shown, shown_origin};

use crate::command::parsed;
use clap::ArgMatches;
use fd_spell::{is_name, number};
use std::alloc::Global;

/// Where the program comes from.
#[derive(Clone, Copy, Debug, PartialEq, Eq)]
pub enum Origin<'a> {
    /// The file of this name.
    File(&'a str),
    /// The mesh of `size` points that is made from a seed.
    Mesh { seed: u32, size: u32 },
}

/// The order in which the nodes take turns.
#[derive(Clone, Copy, Debug, PartialEq, Eq)]
pub enum Turns {
    /// One after another, from node 0 on, again and again.
    RoundRobin,
    /// In the order that a seed gives.
    Seeded(u32),
}

/// Which node runs an iteration of a FORALL.
#[derive(Clone, Copy, Debug, PartialEq, Eq)]
pub enum Iterations {
    /// The owner of what the first statement changes.
    Owner,
    /// The first of the nodes that own most of what the iteration refers to.
    Most,
}

/// How the program runs.
#[derive(Clone, Copy, Debug, PartialEq, Eq)]
pub struct Manner {
    /// On how many nodes the program runs, 1 to 16.
    pub nodes: u32,
    /// In which order the nodes take turns.
    pub turns: Turns,
    /// Which node runs an iteration.
    pub iterations: Iterations,
    /// Whether a report is written behind the text.
    pub report: bool,
    /// Whether it runs plainly, without nodes.
    pub plain: bool,
}

/// What the words ask for.
#[derive(Clone, Copy, Debug, PartialEq, Eq)]
pub struct Request<'a> {
    pub origin: Origin<'a>,
    pub manner: Manner,
}

/// Why there is no request.
#[derive(Clone, Copy, Debug, PartialEq, Eq)]
pub enum Refused {
    /// The words aren't taken.
    NotTaken,
    /// Memory is wanting.
    Memory,
}

/// Whether clap is handed a word: it isn't `--`, and doesn't begin with one dash.
fn is_clear(word: &str) -> bool
    ensures { result ≡ is_clear word.now }
{
    match word.as_bytes() {
        [b'-', b'-', _, ..] => true,
        [b'-', ..] => false,
        _ => true,
    }
}

/// Whether clap is handed all words.
fn are_clear(words: &[String]) -> bool
    ensures { result ≡ list_all is_clear (map string_bytes words.now) }
{
    for word in words {
        if !is_clear(word.as_str()) {
            return false;
        }
    }
    true
}

/// The number of nodes, and 4 where none is given.
fn nodes_of(given: Option<&str>) -> Option<u32>
    ensures { result ≡ nodes_of (option_map (λ s. s.now) given.entry) }
{
    match given {
        None => Some(4),
        Some(text) => number(1, 16, text),
    }
}

/// The order of turns: in round robin where no seed is given. A plain run has no turns, so it takes no seed.
fn turns_of(given: Option<&str>, plain: bool) -> Option<Turns>
    ensures { result ≡ turns_of (option_map (λ s. s.now) given.entry) plain }
{
    match (given, plain) {
        (None, _) => Some(Turns::RoundRobin),
        (Some(_), true) => None,
        (Some(text), false) => seeded(text),
    }
}

/// The order that a seed gives.
fn seeded(text: &str) -> Option<Turns>
    ensures { result ≡ option_map Turns.Seeded (number_in 0 (2 ^ 32 - 1) text.now) }
{
    let seed = number(0, u32::MAX, text)?;
    Some(Turns::Seeded(seed))
}

/// The rule with this name.
fn iterations_named(text: &str) -> Option<Iterations>
    ensures { result ≡ iterations_named text.now }
{
    if text == "owner" {
        Some(Iterations::Owner)
    } else if text == "most" {
        Some(Iterations::Most)
    } else {
        None
    }
}

/// Which node runs an iteration: the owner where nothing is given.
fn iterations_of(given: Option<&str>) -> Option<Iterations>
    ensures { result ≡ iterations_of (option_map (λ s. s.now) given.entry) }
{
    match given {
        None => Some(Iterations::Owner),
        Some(text) => iterations_named(text),
    }
}

/// Whether a report is asked for. A plain run has none, so it takes no wish for one.
fn report_of(report: bool, plain: bool) -> Option<bool>
    ensures { result ≡ report_of report plain }
{
    match (report, plain) {
        (true, true) => None,
        (true, false) => Some(true),
        (false, _) => Some(false),
    }
}

/// How the program runs.
fn manner_of(
    nodes: Option<&str>,
    turns: Option<&str>,
    iterations: Option<&str>,
    report: bool,
    plain: bool,
) -> Option<Manner>
    ensures manner { result ≡ manner_of (option_map (λ s. s.now) nodes.entry) (option_map (λ s. s.now) turns.entry)
        (option_map (λ s. s.now) iterations.entry) report plain }
    ensures some_nodes { IfSome result (λ m. 1 ≤ m.nodes) }
    ensures few_nodes { IfSome result (λ m. m.nodes ≤ 16) }
{
    let nodes = nodes_of(nodes)?;
    let turns = turns_of(turns, plain)?;
    let iterations = iterations_of(iterations)?;
    let report = report_of(report, plain)?;
    Some(Manner {
        nodes,
        turns,
        iterations,
        report,
        plain,
    })
}

/// The source's file.
fn file_of<'a>(source: &'a str) -> Option<Origin<'a>>
    ensures { option_map shown_origin result ≡ file_of source.entry.now }
{
    if is_name(source) {
        Some(Origin::File(source))
    } else {
        None
    }
}

/// The mesh of a seed and a size.
fn mesh_of<'a>(seed: &str, size: &str) -> Option<Origin<'a>>
    ensures origin { option_map shown_origin result ≡ origin_of None (Some seed.now) (Some size.now) }
    ensures range { IfSome result HasMeshInRange }
{
    let seed = number(0, u32::MAX, seed)?;
    let size = number(8, 100_000, size)?;
    Some(Origin::Mesh { seed, size })
}

/// Where the program comes from: a source and neither mesh nor size, or both and no source.
fn origin_of<'a>(
    source: Option<&'a str>,
    seed: Option<&'a str>,
    size: Option<&'a str>,
) -> Option<Origin<'a>>
    ensures origin { option_map shown_origin result
        ≡ origin_of (option_map (λ s. s.now) source.entry) (option_map (λ s. s.now) seed.entry) (option_map (λ s. s.now) size.entry) }
    ensures range { IfSome result HasMeshInRange }
{
    match (source, seed, size) {
        (Some(source), None, None) => file_of(source),
        (None, Some(seed), Some(size)) => mesh_of(seed, size),
        _ => None,
    }
}

/// What clap's matches ask for.
fn read<'a>(matches: &ArgMatches<'a>) -> Option<Request<'a>>
    ensures asked { (report plain : Bool) → one_of (codes "report") (rows_of (found_of matches.now)) ≡ Some (flag_text report)
        → one_of (codes "plain") (rows_of (found_of matches.now)) ≡ Some (flag_text plain)
        → option_map shown result ≡ both (origin_by (rows_of (found_of matches.now)))
        (manner_with (rows_of (found_of matches.now)) report plain) }
    ensures some_nodes { IfSome result (λ r. 1 ≤ r.manner.nodes) }
    ensures few_nodes { IfSome result (λ r. r.manner.nodes ≤ 16) }
    ensures range { IfSome result (λ r. HasMeshInRange r.origin) }
{
    let source = matches.get_str("source");
    let Some(origin) = origin_of(source, matches.get_str("mesh"), matches.get_str("size")) else {
        return None;
    };
    let report = matches.get_flag("report");
    let plain = matches.get_flag("plain");
    let nodes = matches.get_str("nodes");
    let turns = matches.get_str("turns");
    let iterations = matches.get_str("iterations");
    let Some(manner) = manner_of(nodes, turns, iterations, report, plain) else {
        return None;
    };
    Some(Request { origin, manner })
}

/// What the words ask for: SOURCE, or `--mesh` with `--size`, and `--nodes`, `--iterations`, `--report`, `--turns`
/// and `--plain`.
///
/// An option stands at most once. `--nodes`, `--iterations`, `--mesh`, `--size` and `--turns` take the next word as
/// their value, or carry it after `=`. `--plain` stands with neither `--report` nor `--turns`.
pub fn requested<'a>(alloc: Global, words: &'a [String]) -> Result<Request<'a>, Refused>
    ensures taken { IfOk result (λ request. asked (map string_bytes words.entry.now) ≡ Some (shown request)) }
    ensures refused { result ≡ Err Refused.NotTaken → asked (map string_bytes words.entry.now) ≡ None }
    ensures some_nodes { IfOk result (λ request. 1 ≤ request.manner.nodes) }
    ensures few_nodes { IfOk result (λ request. request.manner.nodes ≤ 16) }
    ensures range { IfOk result (λ request. HasMeshInRange request.origin) }
{
    if !are_clear(words) {
        return Err(Refused::NotTaken);
    }
    let matches = match parsed(alloc, words) {
        Ok(matches) => matches,
        Err(refused) => return Err(refused),
    };
    match read(&matches) {
        None => Err(Refused::NotTaken),
        Some(request) => Ok(request),
    }
}
