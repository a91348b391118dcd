ghost use Rattle.std.specs.Prelude.{◌≡◌, ◌+◌, ◌*◌, ◌≤◌, length, IfOk};
ghost use Rattle.fd_outside.specs.Causes.{NoneFell};
ghost use Rattle.fd_program.specs.Stores.{array_at, zeros_of};
ghost use Rattle.chaos_dist.specs.Homes.{natural};
ghost use Rattle.fd_edge.specs.Readings.{files_read};
ghost use Rattle.fd_load.specs.Loads.{IsFilled, IsLoaded};

use crate::file::read_file;
use fd_data::DataFault;
use fd_edge::FileStop;
use fd_outside::Files;
use fd_program::{ArrayFacts, Checked, Store};
use fd_words::{Memory, Name, Numbers};
use std::alloc::Global;

/// Why there is no store: the file of the array with this number couldn't be read, or has a fault.
#[derive(Clone, Copy, Debug, PartialEq, Eq)]
pub enum LoadStop {
    Unread { array: u64 },
    Fault { array: u64, fault: DataFault },
    Memory,
}

/// The array with this number; one of no elements where there is none.
pub fn array_at(checked: &Checked, array: u64) -> ArrayFacts
    ensures { result ≡ array_at checked.now.arrays array }
{
    checked
        .arrays
        .as_slice()
        .get(array as usize)
        .copied()
        .unwrap_or(ArrayFacts {
            name: Name::new(),
            extent: 0,
            decomposition: 0,
            offset: 0,
        })
}

fn zero_store(alloc: Global, checked: &Checked) -> Result<Store, Memory>
    ensures { IfOk result (λ store. store ≡ zeros_of checked.now.arrays) }
{
    let mut store = Store::new(alloc);
    let arrays = checked.arrays.as_slice();
    for facts in arrays {
        store.push(Numbers::zeros(alloc, facts.extent)?)?;
    }
    Ok(store)
}

/// The number of an array in a list of such numbers.
fn natural(number: i64) -> u64
    ensures { result ≡ natural number }
{
    u64::try_from(number).unwrap_or(0)
}

/// Puts the numbers of one array's file into the store.
fn fill<F: Files>(
    alloc: Global,
    files: &mut F,
    checked: &Checked,
    number: i64,
    store: &mut Store,
) -> Result<(), LoadStop>
    ensures filled { IsFilled (files_read F.contents F.faults files.old files.new) checked.now number store.old store.new result }
    ensures contents { F.contents files.new ≡ F.contents files.old }
    ensures faults { NoneFell (F.faults files.old) (F.faults files.new) }
    ensures reads { F.reads files.new ≤ F.reads files.old + 33554434 }
{
    let array = natural(number);
    let facts = array_at(checked, array);
    match read_file(alloc, files, &facts) {
        Ok(values) => {
            store.put(array, values);
            Ok(())
        }
        Err(FileStop::Unread) => Err(LoadStop::Unread { array }),
        Err(FileStop::Fault(fault)) => Err(LoadStop::Fault { array, fault }),
        Err(FileStop::Memory) => Err(LoadStop::Memory),
    }
}

/// The store before the run: reads the file of each array that is read, in order, up to the first that can't be read
/// or has a fault. The file of array X is `x.csv`, its numbers one a record.
pub fn load<F: Files>(alloc: Global, files: &mut F, checked: &Checked) -> Result<Store, LoadStop>
    ensures loaded { IsLoaded (files_read F.contents F.faults files.old files.new) checked.now result }
    ensures contents { F.contents files.new ≡ F.contents files.old }
    ensures faults { NoneFell (F.faults files.old) (F.faults files.new) }
    ensures reads { F.reads files.new ≤ F.reads files.old + length checked.now.reads * 33554434 }
{
    let Ok(mut store) = zero_store(alloc, checked) else {
        return Err(LoadStop::Memory);
    };
    let reads = checked.reads.as_slice();
    for number in reads {
        match fill(alloc, files, checked, *number, &mut store) {
            Ok(()) => {}
            Err(stop) => return Err(stop),
        }
    }
    Ok(store)
}
