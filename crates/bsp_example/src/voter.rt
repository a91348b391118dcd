ghost use Rattle.std.specs.Prelude.{◌≡◌, ◌^◌, ◌<◌, ◌≤◌, length, IfOk};
ghost use Rattle.bsp_example.specs.Rows.{VoterState, VoterPlan, IsVoterPlan, voter_row, voter_holds, face_by, all_of};

use crate::phase::{pool_of, prepared};
use crate::reading::{flag_after, is_all, left_after};
use bsp_core::{Phased, TakeFault, Want};
use bsp_desk::Desk;
use chaos_letter::{Letter, Wanted};
use fd_words::Memory;
use std::alloc::Global;
use std::marker::Model;

/// A node that learns whether a flag is set. It keeps a list whose room nothing determines.
#[derive(Drop)]
pub struct Voter {
    alloc: Global,
    desk: Desk,
    flag: bool,
    pool: Vec<u32>,
}

impl Model for Voter {
    ghost use Rattle.std.specs.Prelude.{vec_capacity};
    ghost use Rattle.bsp_core.specs.Views.{View};
    ghost use Rattle.bsp_example.specs.Rows.{VoterState};

    ghost Value = { View VoterState };

    ghost view = { λ s. record { face = s.desk; state = record { flag = s.flag; room = vec_capacity s.pool } } };
}

/// A node as a phase begins.
fn voter_of(alloc: Global, me: u32, count: u32, left: u32, flag: bool) -> Result<Voter, Memory>
    requires me { me < count }
    requires few { count ≤ 16 }
    requires left { left < 2 ^ 31 }
    ensures face { IfOk result (λ s. s.face ≡ face_by count me left (all_of left flag) flag) }
    ensures flag { IfOk result (λ s. s.state.flag ≡ flag) }
    ensures pool { IfOk result (λ s. 4 ≤ s.state.room) }
{
    let all = is_all(left, flag);
    let phase = prepared(alloc, left, all, me, count, flag)?;
    let pool = pool_of(alloc)?;
    Ok(Voter {
        alloc,
        desk: Desk::new(me, count, phase),
        flag,
        pool,
    })
}

impl Voter {
    /// The node of a number, among so many, with its flag.
    pub fn start(alloc: Global, me: u32, count: u32, flag: bool) -> Result<Voter, Memory>
        requires me { me < count }
        requires few { count ≤ 16 }
        ensures face { IfOk result (λ s. s.face ≡ face_by count me 3 (all_of 3 flag) flag) }
        ensures flag { IfOk result (λ s. s.state.flag ≡ flag) }
        ensures pool { IfOk result (λ s. 4 ≤ s.state.room) }
    {
        voter_of(alloc, me, count, 3, flag)
    }

    /// Whether a flag is set, as far as the node knows.
    pub fn flag(&self) -> bool
        ensures { result ≡ self.now.state.flag }
    {
        self.flag
    }
}

impl Phased for Voter {
    ghost State = { VoterState };

    ghost Plan = { VoterPlan };

    ghost IsPlan = { IsVoterPlan };

    ghost count = { λ plan. length plan };

    ghost rows = { voter_row };

    ghost holds = { voter_holds };

    ghost view = { λ s. s };

    fn next(&self) -> Want {
        self.desk.next()
    }

    fn wanted(&self) -> Wanted {
        self.desk.wanted()
    }

    fn post(&mut self) -> Letter {
        self.desk.post()
    }

    fn take(&mut self, letter: Letter) -> Result<(), TakeFault> {
        self.desk.take(letter)
    }

    fn work(&mut self) -> Result<(), Memory> {
        let before = self.desk.left();
        let flag = flag_after(before, self.flag, self.desk.got());
        let left = left_after(before, flag);
        let next = voter_of(self.alloc, self.desk.me(), self.desk.count(), left, flag)?;
        *self = next;
        Ok(())
    }

    ghost use Rattle.bsp_example.specs.Laws.{voter_meets, voter_falls};

    ghost rows_meet = { λ plan h t. voter_meets plan t };

    ghost few = { λ plan h. h };

    ghost rows_fall = { λ plan h t. voter_falls plan t };
}
