ghost use Rattle.std.specs.Prelude.{◌≡◌, ◌≤◌, None, length, IfOk};
ghost use Rattle.fd_outside.specs.Host.{read_faults, write_faults};

use crate::count::one_more;
use crate::within::{Failed, Files, Sink};
use std::io::{Print, Read, Seek, SeekFrom};
use std::{fs, io};

/// The files of the working folder. A read that fails, as of a file that isn't there, is a fault of
/// every name. What the files hold isn't told.
#[derive(Drop)]
pub struct HostFiles<'a, Rt> {
    rt: &'a Rt,
    faults: u64,
}

/// Standard output. A write that fails, or that takes nothing of a piece, is a fault.
#[derive(Drop)]
pub struct HostSink<'a, Rt> {
    rt: &'a Rt,
    faults: u64,
}

impl<'a, Rt: std::rt::Files> HostFiles<'a, Rt> {
    pub fn new(rt: &'a Rt) -> HostFiles<'a, Rt>
        ensures { read_faults result ≡ 0 }
    {
        HostFiles { rt, faults: 0 }
    }

    fn try_read(&self, name: &str, at: u64, into: &mut [u8]) -> io::Result<usize>
        ensures { IfOk result (λ n. n ≤ length into.old) }
    {
        let mut file = fs::open(self.rt, name)?;
        file.seek(SeekFrom::Start(at))?;
        file.read(into)
    }
}

impl<'a, Rt: std::rt::Files> Files for HostFiles<'a, Rt> {
    ghost contents = { λ h name. None };

    ghost faults = { λ h name. read_faults h };

    ghost reads = { λ h. 0 };

    fn read_at(&mut self, name: &str, at: u64, into: &mut [u8]) -> Result<usize, Failed> {
        match self.try_read(name, at, into) {
            Ok(count) => Ok(count),
            Err(_) => {
                self.faults = one_more(self.faults);
                Err(Failed)
            }
        }
    }
}

impl<'a, Rt: Print> HostSink<'a, Rt> {
    pub fn new(rt: &'a Rt) -> HostSink<'a, Rt>
        ensures { write_faults result ≡ 0 }
    {
        HostSink { rt, faults: 0 }
    }
}

impl<'a, Rt: Print> Sink for HostSink<'a, Rt> {
    ghost written = { λ h. None };

    ghost faults = { write_faults };

    ghost writes = { λ h. 0 };

    fn write(&mut self, piece: &[u8]) -> Result<usize, Failed> {
        match self.rt.write_some(piece) {
            Ok(count) if 1 <= count || piece.is_empty() => Ok(count),
            _ => {
                self.faults = one_more(self.faults);
                Err(Failed)
            }
        }
    }
}
