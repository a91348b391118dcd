ghost use Rattle.std.specs.Prelude.{◌≡◌, ◌<◌, ◌<ℤ◌, ◌^◌, pos, not, length, IfOk};
ghost use Rattle.fd_program.specs.Stores.{number_at};
ghost use Rattle.chaos_records.specs.Keeping.{change_by, is_repeated, moved, no_records, setting_in, written_at};

use crate::setting::Setting;
use chaos_dist::StepForm;
use fd_words::{Memory, Numbers};
use sqlite_items::Items;
use std::alloc::Global;

/// For each array its change number: 1 more than the number of the latest execution that changed it,
/// else 0. For each decomposition its form, and its version: how often it was moved.
#[derive(Drop)]
pub struct Records {
    changes: Numbers,
    settings: Items<Setting>,
}

impl Records {
    /// No array was changed; each decomposition is BLOCK and wasn't moved.
    pub fn new(alloc: Global, arrays: u32, layouts: u32) -> Result<Records, Memory>
        ensures { IfOk result (λ r. r ≡ no_records arrays layouts) }
    {
        let changes = vec![in alloc; 0i64; arrays as usize]?;
        let settings = vec![in alloc; Setting::first(); layouts as usize]?;
        Ok(Records {
            changes: Numbers::from_vec(changes),
            settings: Items::from_vec(settings),
        })
    }

    /// The execution with this number changes an array. It takes no memory.
    pub fn note_write(&mut self, array: u32, execution: u64)
        requires array { array < length self.old.changes }
        requires execution { execution < 2 ^ 32 }
        ensures { self.new ≡ written_at execution self.old array }
    {
        self.changes.set(u64::from(array), execution as i64 + 1);
    }

    /// A decomposition is given a form: true exactly where that is no repeat, and then its version is 1
    /// more; a repeat changes nothing. It takes no memory.
    pub fn note_move(&mut self, decomposition: u32, form: StepForm) -> bool
        requires decomposition { decomposition < length self.old.settings }
        requires version { (setting_in self.old decomposition).version <ℤ pos (2 ^ 32) }
        ensures moves { result ≡ not (is_repeated self.old decomposition form) }
        ensures now { self.new ≡ moved self.old decomposition form }
    {
        let old = self.setting(decomposition);
        let change = self.change_for(form);
        if old.is(form, change) {
            return false;
        }
        let version = old.version + 1;
        self.settings.set(
            decomposition as usize,
            Setting {
                form,
                change,
                version,
            },
        );
        true
    }

    /// The form that a decomposition has now, BLOCK where there is no such decomposition.
    pub fn form(&self, decomposition: u32) -> StepForm
        ensures { result ≡ (setting_in self.now decomposition).form }
    {
        self.setting(decomposition).form
    }

    /// Whether a decomposition has this form now, and if it is by a map, no change of its array was noted
    /// since it was given.
    pub fn is_repeat(&self, decomposition: u32, form: StepForm) -> bool
        ensures { result ≡ is_repeated self.now decomposition form }
    {
        self.setting(decomposition).is(form, self.change_for(form))
    }

    /// Equal records.
    pub fn copy(&self, alloc: Global) -> Result<Records, Memory>
        ensures { IfOk result (λ r. r ≡ self.now) }
    {
        Ok(Records {
            changes: self.changes.copy(alloc)?,
            settings: Items::from_slice(alloc, self.settings.as_slice())?,
        })
    }

    /// How many arrays there are.
    pub fn arrays(&self) -> u64
        ensures { result ≡ length self.now.changes }
    {
        self.changes.len()
    }

    /// How many decompositions there are.
    pub fn layouts(&self) -> usize
        ensures { result ≡ length self.now.settings }
    {
        self.settings.len()
    }

    /// How often a decomposition was moved, 0 where there is no such decomposition.
    pub fn version(&self, decomposition: u32) -> i64
        ensures { result ≡ (setting_in self.now decomposition).version }
    {
        self.setting(decomposition).version
    }

    pub(crate) fn setting(&self, decomposition: u32) -> Setting
        ensures { result ≡ setting_in self.now decomposition }
    {
        match self.settings.get(decomposition as usize) {
            Some(setting) => *setting,
            None => Setting::first(),
        }
    }

    pub(crate) fn change(&self, array: u32) -> i64
        ensures { result ≡ number_at self.now.changes array }
    {
        self.changes.get(u64::from(array)).unwrap_or(0)
    }

    fn change_for(&self, form: StepForm) -> i64
        ensures { result ≡ change_by self.now form }
    {
        match form {
            StepForm::Regular(_) => 0,
            StepForm::Map(array) => self.change(array),
        }
    }
}
