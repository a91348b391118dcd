ghost use Rattle.std.specs.Prelude.{◌≡◌, ◌≤◌, length, IfErr, IfOk, Option};
ghost use Rattle.fd_outside.specs.Causes.{NoneFell};
ghost use Rattle.fd_program.specs.Stores.{array_at};
ghost use Rattle.fd_command.specs.Asked.{Asked, file, mesh};
ghost use Rattle.fd_command.specs.Shown.{shown_origin, HasMeshInRange};
ghost use Rattle.fd_edge.specs.Endings.{StopsAs};
ghost use Rattle.fd_edge.specs.Lines.{data_line, unread_line};
ghost use Rattle.fd_edge.specs.Readings.{Reading, files_read};
ghost use Rattle.fd_load.specs.Files.{file_of};
ghost use Rattle.fd_top.specs.Outcomes.{AreAccepted, CallStops, Gives, ReadingStops, TextStops};
ghost use Rattle.fd_top.specs.Ready.{CanRun, IsCalled, IsRefused, IsSoundRequest, IsUnloaded, IsUntaken, Tells};

use crate::made::MadeFiles;
use fd_command::{Manner, Origin, Refused, Request};
use fd_data::DataFault;
use fd_edge::{Stop, unread_line};
use fd_front::{Source, read_source};
use fd_load::{LoadStop, array_at, file_name, load};
use fd_mesh::mesh;
use fd_outside::{Files, ReadStop, read_whole};
use fd_program::{Checked, Store};
use fd_words::{Bytes, Memory, SourceStop};
use std::alloc::Global;

/// A source has at most so many bytes.
const SOURCE_LIMIT: u64 = 1_048_576;

const TOO_LONG: &[u8] = b"source: longer than 1048576 bytes\n";

/// A source that was accepted, and its store before the run.
#[derive(Drop)]
pub(crate) struct Ready {
    pub(crate) source: Source,
    pub(crate) store: Store,
}

/// A source that is to be run, and how.
#[derive(Drop)]
pub(crate) struct Call {
    pub(crate) manner: Manner,
    pub(crate) ready: Ready,
}

/// The stop with a copy of this line.
fn stop_with(alloc: Global, status: u8, text: &[u8]) -> Stop
    ensures { StopsAs (λ s l. (s ≡ status) × (l ≡ text.now)) result }
{
    let mut line = Bytes::new(alloc);
    match line.append(text) {
        Ok(()) => Stop::Line { status, line },
        Err(Memory) => Stop::Memory,
    }
}

/// The line of words that aren't taken.
fn untaken(alloc: Global, usage: &[u8], refused: Refused) -> Stop
    ensures { StopsAs (IsUntaken usage.now refused) result }
{
    match refused {
        Refused::NotTaken => stop_with(alloc, 2, usage),
        Refused::Memory => Stop::Memory,
    }
}

/// The line of a text that isn't accepted.
fn refused(alloc: Global, stop: SourceStop) -> Stop
    ensures { StopsAs (IsRefused stop) result }
{
    match stop {
        SourceStop::Fault(fault) => Stop::of(65, fd_front::fault_line(alloc, fault)),
        SourceStop::Memory => Stop::Memory,
    }
}

/// The line of an array's file that can't be read.
fn unread(alloc: Global, checked: &Checked, array: u64) -> Stop
    ensures { StopsAs (λ status line. (status ≡ 69) × (line ≡ unread_line (file_of (array_at checked.now.arrays array)))) result }
{
    let facts = array_at(checked, array);
    match file_name(alloc, &facts.name) {
        Ok(name) => Stop::of(69, unread_line(alloc, name.as_str())),
        Err(Memory) => Stop::Memory,
    }
}

/// The line of an array's file that is faulty.
fn faulty(alloc: Global, checked: &Checked, array: u64, fault: DataFault) -> Stop
    ensures { StopsAs (λ status line. (status ≡ 66) × (line ≡ data_line (array_at checked.now.arrays array).name fault)) result }
{
    let facts = array_at(checked, array);
    let line = fd_edge::fault_line(alloc, facts.name.as_slice(), fault);
    Stop::of(66, line)
}

/// The line of data files that gave no store.
fn unloaded(alloc: Global, checked: &Checked, stop: LoadStop) -> Stop
    ensures { StopsAs (IsUnloaded checked.now stop) result }
{
    match stop {
        LoadStop::Unread { array } => unread(alloc, checked, array),
        LoadStop::Fault { array, fault } => faulty(alloc, checked, array, fault),
        LoadStop::Memory => Stop::Memory,
    }
}

/// Reads a text, and the data files of the arrays that it reads.
fn text_ready<F: Files>(alloc: Global, text: &[u8], files: &mut F) -> Result<Ready, Stop>
    requires short { length text.now ≤ 1048576 }
    ensures ready { IfOk result (λ a. Gives (files_read F.contents F.faults files.old files.new) text.now a.source a.store) }
    ensures stop { IfErr result (StopsAs (TextStops (files_read F.contents F.faults files.old files.new) text.now)) }
    ensures contents { F.contents files.new ≡ F.contents files.old }
    ensures faults { NoneFell (F.faults files.old) (F.faults files.new) }
{
    let source = match read_source(alloc, text) {
        Ok(source) => source,
        Err(stop) => return Err(refused(alloc, stop)),
    };
    match load(alloc, files, &source.checked) {
        Ok(store) => Ok(Ready { source, store }),
        Err(stop) => Err(unloaded(alloc, &source.checked, stop)),
    }
}

/// Reads a source's file, and its data files.
fn file_ready<F: Files>(alloc: Global, name: &str, files: &mut F) -> Result<Ready, Stop>
    ensures ready { IfOk result (λ a. AreAccepted (file name.now) (files_read F.contents F.faults files.old files.new) a.source a.store) }
    ensures stop { IfErr result (StopsAs (ReadingStops (file name.now) (files_read F.contents F.faults files.old files.new))) }
    ensures contents { F.contents files.new ≡ F.contents files.old }
    ensures faults { NoneFell (F.faults files.old) (F.faults files.new) }
{
    match read_whole(alloc, files, name, SOURCE_LIMIT) {
        Ok(text) => text_ready(alloc, text.as_slice(), files),
        Err(ReadStop::TooLong) => Err(stop_with(alloc, 65, TOO_LONG)),
        Err(ReadStop::Failed) => Err(Stop::of(69, unread_line(alloc, name))),
        Err(ReadStop::Memory) => Err(Stop::Memory),
    }
}

/// Makes a mesh, as a source and files that were read.
fn mesh_ready(alloc: Global, seed: u32, size: u32) -> Result<Ready, Stop>
    requires least { 8 ≤ size }
    requires most { size ≤ 100000 }
    ensures ready { (r : Reading) → IfOk result (λ a. AreAccepted (mesh seed size) r a.source a.store) }
    ensures stop { (r : Reading) → IfErr result (StopsAs (ReadingStops (mesh seed size) r)) }
{
    let Ok(made) = mesh(alloc, u64::from(seed), u64::from(size)) else {
        return Err(Stop::Memory);
    };
    let source = made.source;
    if source.len() > SOURCE_LIMIT {
        return Err(stop_with(alloc, 65, TOO_LONG));
    }
    let mut files = MadeFiles { files: made.files };
    text_ready(alloc, source.as_slice(), &mut files)
}

/// Reads a source or makes a mesh: a source that can be run, and its store before the run; or the line that is written
/// where there is none.
fn origin_ready<F: Files>(alloc: Global, origin: &Origin<'_>, files: &mut F) -> Result<Ready, Stop>
    requires range { HasMeshInRange origin.now }
    ensures ready { IfOk result (λ a. AreAccepted (shown_origin origin.now) (files_read F.contents F.faults files.old files.new) a.source
        a.store) }
    ensures stop { IfErr result (StopsAs (ReadingStops (shown_origin origin.now) (files_read F.contents F.faults files.old files.new))) }
    ensures contents { F.contents files.new ≡ F.contents files.old }
    ensures faults { NoneFell (F.faults files.old) (F.faults files.new) }
{
    match *origin {
        Origin::File(name) => file_ready(alloc, name, files),
        Origin::Mesh { seed, size } => mesh_ready(alloc, seed, size),
    }
}

/// What a request asks for, made ready; or the line that is written in its place, the usage line for words that aren't
/// taken.
pub(crate) fn called<F: Files>(
    alloc: Global,
    request: &Result<Request<'_>, Refused>,
    usage: &[u8],
    files: &mut F,
) -> Result<Call, Stop>
    requires { IsSoundRequest request.now }
    ensures call { (asked : Option Asked) → Tells asked request.now
        → IfOk result (IsCalled asked (files_read F.contents F.faults files.old files.new)) }
    ensures runs { IfOk result CanRun }
    ensures stop { (asked : Option Asked) → Tells asked request.now
        → IfErr result (StopsAs (CallStops usage.now asked (files_read F.contents F.faults files.old files.new))) }
    ensures contents { F.contents files.new ≡ F.contents files.old }
    ensures faults { NoneFell (F.faults files.old) (F.faults files.new) }
{
    let request = match request {
        Ok(request) => request,
        Err(refused) => return Err(untaken(alloc, usage, *refused)),
    };
    match origin_ready(alloc, &request.origin, files) {
        Ok(ready) => Ok(Call {
            manner: request.manner,
            ready,
        }),
        Err(stop) => Err(stop),
    }
}
