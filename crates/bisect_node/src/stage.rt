ghost use Rattle.std.specs.Prelude.{◌≡◌, ◌≤◌};
ghost use Rattle.chaos_cut.specs.Bisection.{levels_of};
ghost use Rattle.bisect_node.specs.Stages.{phases_of, stage_of, wanted_in, way_of};

use bsp_desk::Way;
use chaos_letter::{Kind, Wanted};

/// What nodes tell in a phase: the spread of their coordinates; how many keys they have below the candidates,
/// of which so many bits are found; or the parts of their elements.
#[derive(Clone, Copy, Debug, PartialEq, Eq)]
pub enum Stage {
    Spread,
    Rank(u32),
    Print,
}

/// So many cuts lead to so many parts, up to 64: the least number with 2 to its power at least the parts.
pub fn levels(parts: u32) -> u32
    ensures is { result ≡ levels_of parts }
    ensures few { result ≤ 6 }
{
    if parts <= 1 {
        return 0;
    }
    if parts <= 2 {
        return 1;
    }
    if parts <= 4 {
        return 2;
    }
    if parts <= 8 {
        return 3;
    }
    if parts <= 16 {
        return 4;
    }
    if parts <= 32 { 5 } else { 6 }
}

/// How many phases there are.
pub fn phases(parts: u32) -> u32
    ensures is { result ≡ phases_of parts }
    ensures few { result ≤ 511 }
{
    85 * levels(parts) + 1
}

/// The stage of a phase.
pub fn stage_at(parts: u32, phase: u32) -> Stage
    ensures { result ≡ stage_of (levels_of parts) phase }
{
    if phase >= 85 * levels(parts) {
        return Stage::Print;
    }
    if phase % 85 == 0 {
        return Stage::Spread;
    }
    Stage::Rank(phase % 85 - 1)
}

/// Who sends in a stage.
pub fn way_in(stage: Stage) -> Way
    ensures { result ≡ way_of stage }
{
    match stage {
        Stage::Spread => Way::ToAll,
        Stage::Rank(_) => Way::ToAll,
        Stage::Print => Way::ToFirst,
    }
}

/// What is wanted in a phase of a stage, in which so many numbers are told.
pub fn wanted_by(axes: u32, count: u64, phase: u32, stage: Stage) -> Wanted
    ensures { result ≡ wanted_in axes count phase stage }
{
    let (kind, group, least, most) = match stage {
        Stage::Spread => (Kind::Spread, 2 * u64::from(axes), count, count),
        Stage::Rank(_) => (Kind::Rank, 1, count, count),
        Stage::Print => (Kind::Print, 2, 0, 4_294_967_296),
    };
    Wanted {
        kind,
        execution: u64::from(phase),
        site: 0,
        group,
        least,
        most,
    }
}
