ghost use Rattle.std.specs.Prelude.{◌≡◌, ◌≤◌, ◌<◌, ◌==◌, ◌^◌, not};
ghost use Rattle.std.specs.List.{list_any};
ghost use Rattle.fd_program.specs.Met.{is_map as is_map_of};
ghost use Rattle.chaos_count.specs.Counting.{asks_in, has_indexes as has_indexes_in, inspection_count, is_asked as is_asked_in, is_for_in};
ghost use Rattle.chaos_count.specs.Counting.{is_looked_at_in, round_count, two_if as two_for};

use chaos_dist::StepForm;
use chaos_records::Records;
use fd_program::{ArrayFacts, HomeRule, Reference, Site, decomposition, first_target, is_plain};
use fd_words::Role;
use plan_loop::{Asking, Level};

/// The phases of an inspection of a FORALL without an offence, as the decompositions are now.
pub(crate) fn inspection_phases(
    records: &Records,
    arrays: &[ArrayFacts],
    rule: HomeRule,
    site: &Site,
) -> u64
    ensures count { result ≡ inspection_count records.now arrays.now rule site.now }
    ensures few { result ≤ 15 }
{
    round_phases(records, arrays, rule, site, Level::First)
        + round_phases(records, arrays, rule, site, Level::Second)
        + two_if(asks(records, arrays, rule, site, Asking::Homes))
        + two_if(asks(records, arrays, rule, site, Asking::References))
        + 3
}

/// The phases of a round of fetching the values of index arrays.
fn round_phases(
    records: &Records,
    arrays: &[ArrayFacts],
    rule: HomeRule,
    site: &Site,
    level: Level,
) -> u64
    ensures count { result ≡ round_count records.now arrays.now rule site.now level }
    ensures few { result ≤ 4 }
{
    two_if(asks(records, arrays, rule, site, Asking::Indexes(level)))
        + two_if(has_indexes(site.references.as_slice(), level))
}

fn two_if(is: bool) -> u64
    ensures count { result ≡ two_for is }
    ensures few { result ≤ 2 }
{
    if is { 2 } else { 0 }
}

/// Whether a FORALL has index references of this level.
fn has_indexes(references: &[Reference], level: Level) -> bool
    ensures { result ≡ has_indexes_in references.now level }
{
    references.iter().any(|reference| {
        reference.role.is_index() && level.is_at(is_plain(&reference.subscript))
    })
}

/// Whether places are asked for, since a reference that the asking is for has a map layout.
fn asks(
    records: &Records,
    arrays: &[ArrayFacts],
    rule: HomeRule,
    site: &Site,
    asking: Asking,
) -> bool
    ensures { result ≡ asks_in records.now arrays.now rule site.now asking }
{
    let target = first_target(site.body.as_slice());
    let mut asks = false;
    for (place, reference) in site.references.as_slice().iter().enumerate() {
        let asked = is_asked(records, arrays, rule, target, asking, place, reference);
        asks = asks || asked;
    }
    asks
}

fn is_asked(
    records: &Records,
    arrays: &[ArrayFacts],
    rule: HomeRule,
    target: u32,
    asking: Asking,
    place: usize,
    reference: &Reference,
) -> bool
    requires { place < 2 ^ 63 }
    ensures { result ≡ is_asked_in records.now arrays.now rule target asking place reference.now }
{
    let form = records.form(decomposition(arrays, reference.array));
    let plain = is_plain(&reference.subscript);
    is_for(rule, target, asking, place, reference.role, plain) && is_map(form)
}

fn is_for(
    rule: HomeRule,
    target: u32,
    asking: Asking,
    place: usize,
    role: Role,
    plain: bool,
) -> bool
    requires { place < 2 ^ 63 }
    ensures { result ≡ is_for_in rule target asking place role plain }
{
    match asking {
        Asking::Indexes(level) => role.is_index() && level.is_at(plain),
        Asking::Homes => is_looked_at(rule, target, place),
        Asking::References => !role.is_index(),
    }
}

/// Whether the rule looks at the reference at this place, whose number is 1 more.
fn is_looked_at(rule: HomeRule, target: u32, place: usize) -> bool
    requires { place < 2 ^ 63 }
    ensures { result ≡ is_looked_at_in rule target place }
{
    match rule {
        HomeRule::Owner => place + 1 == target as usize,
        HomeRule::Most => true,
    }
}

fn is_map(form: StepForm) -> bool
    ensures { result ≡ is_map_of form }
{
    match form {
        StepForm::Regular(_) => false,
        StepForm::Map(_) => true,
    }
}
