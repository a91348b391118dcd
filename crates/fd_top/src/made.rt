ghost use Rattle.std.specs.Prelude.{◌≡◌, ◌+◌, ◌≤◌, length, Some, IfOk, IfSome};
ghost use Rattle.fd_outside.specs.Causes.{GivesFrom, HasCause, NoneFell};
ghost use Rattle.fd_top.specs.Made.{made_content, told_made};

use fd_mesh::{FileData, FileList};
use fd_outside::{Failed, Files, copy_from};

/// Files that were made and stand in memory. A name that isn't theirs is that of an empty file, so no read fails.
#[derive(Drop)]
pub(crate) struct MadeFiles {
    pub(crate) files: FileList,
}

/// The bytes of the file with this name, none where there is no such file.
fn content_of<'a>(files: &'a [FileData], name: &str) -> &'a [u8]
    ensures { result.now ≡ made_content files.now name.now }
{
    let mut rest = files;
    while let [file, behind @ ..] = rest {
        if file.name.as_slice() == name.as_bytes() {
            return file.content.as_slice();
        }
        rest = behind;
    }
    &[]
}

impl Files for MadeFiles {
    ghost contents = { λ made. told_made made.files };

    ghost faults = { λ made name. 0 };

    ghost reads = { λ made. 0 };

    fn read_at(&mut self, name: &str, at: u64, into: &mut [u8]) -> Result<usize, Failed>
        ensures most { IfOk result (λ n. n ≤ length into.old) }
        ensures bytes { IfOk result (λ n. IfSome (told_made self.old.files name.now) (λ held. GivesFrom held at n into.new)) }
        ensures same { told_made self.new.files ≡ told_made self.old.files }
        ensures cause { HasCause 0 0 result }
        ensures later { NoneFell (λ other. 0) (λ other. 0) }
        ensures counted { 0 ≤ 0 + 1 }
    {
        Ok(copy_from(content_of(self.files.as_slice(), name), at, into))
    }
}
