ghost use Rattle.std.specs.Prelude.{◌≡◌, ◌+◌, ◌≤◌, position};
ghost use Rattle.fd_outside.specs.Causes.{NoneFell};
ghost use Rattle.fd_edge.specs.Readings.{files_read};
ghost use Rattle.chaos_append.specs.Asked.{shown_asked};
ghost use Rattle.chaos_append.specs.Reading.{AreBins, IsParticlesEnd, IsBinsEnd, first_outside, is_outside};

use crate::asked::Asked;
use fd_edge::{Stop, read_numbers, record_line, stop_for};
use fd_outside::Files;
use fd_words::Numbers;
use std::alloc::Global;

/// The first bins and the values of all particles.
#[derive(Drop)]
pub(crate) struct Particles {
    pub(crate) bins: Numbers,
    pub(crate) values: Numbers,
}

/// The place of the first number that isn't one of the bins.
fn first_outside(bins: u32, numbers: &[i64]) -> Option<usize>
    ensures { result ≡ first_outside bins numbers.now }
{
    let last = i64::from(bins);
    numbers.iter().position(|b| *b < 1 || *b > last)
}

/// The first bins, if each is one of the bins.
fn bins_within(alloc: Global, name: &str, bins: u32, numbers: Numbers) -> Result<Numbers, Stop>
    ensures { AreBins name.now bins numbers result }
{
    match first_outside(bins, numbers.as_slice()) {
        None => Ok(numbers),
        Some(at) => {
            let record = at as u64 + 1;
            let line = record_line(alloc, name.as_bytes(), record, b"no such bin");
            Err(Stop::of(66, line))
        }
    }
}

/// Reads the file of first bins.
fn read_bins<F: Files>(alloc: Global, files: &mut F, asked: &Asked<'_>) -> Result<Numbers, Stop>
    ensures read { IsBinsEnd (files_read F.contents F.faults files.old files.new) (shown_asked asked.now) result }
    ensures contents { F.contents files.new ≡ F.contents files.old }
    ensures faults { NoneFell (F.faults files.old) (F.faults files.new) }
{
    let name = asked.bin_file;
    match read_numbers(alloc, files, name, u64::from(asked.count)) {
        Ok(numbers) => bins_within(alloc, name, asked.bins, numbers),
        Err(stop) => Err(stop_for(alloc, name, stop)),
    }
}

/// Reads the first bins and then the values; or gives the line of what stops it.
pub(crate) fn read_particles<F: Files>(
    alloc: Global,
    files: &mut F,
    asked: &Asked<'_>,
) -> Result<Particles, Stop>
    ensures read { IsParticlesEnd (files_read F.contents F.faults files.old files.new) (shown_asked asked.now) result }
    ensures contents { F.contents files.new ≡ F.contents files.old }
    ensures faults { NoneFell (F.faults files.old) (F.faults files.new) }
{
    let bins = match read_bins(alloc, files, asked) {
        Ok(bins) => bins,
        Err(stop) => return Err(stop),
    };
    let name = asked.value_file;
    match read_numbers(alloc, files, name, u64::from(asked.count)) {
        Ok(values) => Ok(Particles { bins, values }),
        Err(stop) => Err(stop_for(alloc, name, stop)),
    }
}
