ghost use Rattle.std.specs.Prelude.{◌≡◌, ◌≤◌, IfOk};
ghost use Rattle.fd_mesh.specs.Source.{source_of as the_source};
ghost use Rattle.fd_mesh.specs.Mesh.{files_of as the_files};

use crate::files::{FileList, files_of};
use crate::source::source_of;
use fd_words::{Bytes, Memory};
use std::alloc::Global;

/// A source and the data files that it reads.
#[derive(Debug, Drop)]
pub struct MeshFiles {
    pub source: Bytes,
    pub files: FileList,
}

/// The source and the files of the mesh with this seed and size. Each file has one number a line.
pub fn mesh(alloc: Global, seed: u64, size: u64) -> Result<MeshFiles, Memory>
    requires seed_fits { seed ≤ 4294967295 }
    requires least { 8 ≤ size }
    requires most { size ≤ 100000 }
    ensures source { IfOk result (λ mesh. mesh.source ≡ the_source size) }
    ensures files { IfOk result (λ mesh. mesh.files ≡ the_files seed size) }
{
    let source = source_of(alloc, size)?;
    let files = files_of(alloc, seed, size)?;
    Ok(MeshFiles { source, files })
}
