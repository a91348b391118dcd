ghost use Rattle.std.specs.Prelude.{◌≡◌, ℕ, ◌+◌, ◌^◌, ◌<◌, ◌≤◌, ℤ, List, ◌++◌, ◌∷◌, [], true, OnOk, OnErr};
ghost use Rattle.chaos_entering.specs.Coming.{CanStand, begun_holdings, entered_state, face_entered, noted_if};
ghost use Rattle.chaos_holdings.specs.Effects.{end_after, holdings_after};
ghost use Rattle.chaos_node.specs.Changing.{CanBeMade, changed_by};
ghost use Rattle.chaos_node.specs.Putting.{put_in_place, recorded};

use crate::change::Change;
use crate::node::Node;
use chaos_entering::Entered;
use chaos_holdings::{Effect, Holdings, take_effect};
use fd_words::{Bytes, Memory, Numbers};

/// Where an inspection begins, nothing is kept of its FORALL.
fn forget(holdings: &mut Holdings, entered: &Entered)
    ensures { holdings.new ≡ begun_holdings holdings.old entered.now }
{
    if entered.begins {
        holdings.kept.put(entered.at.site, None);
    }
}

/// The numbers but for the last.
fn without_last(numbers: Numbers) -> Numbers
    ensures { (before : List ℤ) (last : ℤ) → numbers ≡ before ++ last ∷ [] → result ≡ before }
{
    let mut items = numbers.into_vec();
    items.pop();
    Numbers::from_vec(items)
}

impl<'a> Node<'a> {
    /// Puts a new phase in the place of the old one, which takes no memory.
    fn install(&mut self, entered: Entered)
        requires { CanStand self.old.face.me self.old.face.count entered }
        ensures face { self.new.face ≡ face_entered self.old.face.me self.old.face.count entered }
        ensures state { self.new.state ≡ record self.old.state { at = entered.at } }
    {
        let Entered {
            at,
            begins: _,
            left,
            out,
            due,
            got,
        } = entered;
        self.at = at;
        self.left = left;
        self.out = out;
        self.due = due;
        self.got = got;
    }

    /// Notes an inspection that begins.
    pub(crate) fn note(&mut self, begins: bool, execution: u64) -> Result<(), Memory>
        requires { begins ≡ true → execution < 2 ^ 63 }
        ensures face { self.new.face ≡ self.old.face }
        ensures ok { OnOk result (self.new.state
            ≡ record self.old.state { inspected = noted_if begins execution self.old.state.inspected }) }
        ensures err { OnErr result (self.new ≡ self.old) }
    {
        if begins {
            self.inspected.push(execution.cast_signed())?;
        }
        Ok(())
    }

    /// Takes a note back.
    fn unnote(&mut self, begins: bool)
        ensures face { self.new.face ≡ self.old.face }
        ensures state { (execution : ℕ) (before : List ℤ) → self.old.state.inspected ≡ noted_if begins execution before
            → self.new.state ≡ record self.old.state { inspected = before } }
    {
        if begins {
            let numbers = std::mem::replace(&mut self.inspected, Numbers::new(self.alloc));
            self.inspected = without_last(numbers);
        }
    }

    /// Writes a line; where memory is wanting nothing has changed.
    fn write_line(&mut self, line: &Bytes) -> Result<(), Memory>
        ensures face { self.new.face ≡ self.old.face }
        ensures ok { OnOk result (self.new.state ≡ record self.old.state { text = self.old.state.text ++ line.now }) }
        ensures err { OnErr result (self.new ≡ self.old) }
    {
        self.text.append(line.as_slice())?;
        Ok(())
    }

    /// Puts what the phase has changed of the holdings in place.
    fn take_changes(&mut self, effect: Effect)
        ensures face { self.new.face ≡ self.old.face }
        ensures state { self.new.state ≡ record self.old.state {
          holdings = holdings_after self.old.state.session.checked
              self.old.state.at.site effect self.old.state.holdings;
          end = end_after self.old.state.at.site effect self.old.state.end;
        } }
    {
        take_effect(
            &mut self.holdings,
            &mut self.end,
            &self.session.checked,
            self.at.site,
            effect,
        );
    }

    /// Keeps nothing of a FORALL whose inspection begins.
    fn forget_kept(&mut self, entered: &Entered)
        ensures face { self.new.face ≡ self.old.face }
        ensures state { self.new.state ≡ record self.old.state { holdings = begun_holdings self.old.state.holdings entered.now } }
    {
        forget(&mut self.holdings, entered);
    }

    /// Notes an inspection that begins and writes the line; where memory is wanting nothing has changed.
    pub(crate) fn record(
        &mut self,
        begins: bool,
        execution: u64,
        line: &Bytes,
    ) -> Result<(), Memory>
        requires { begins ≡ true → execution < 2 ^ 63 }
        ensures face { self.new.face ≡ self.old.face }
        ensures ok { OnOk result (self.new.state ≡ recorded begins execution line.now self.old.state) }
        ensures err { OnErr result (self.new ≡ self.old) }
    {
        self.note(begins, execution)?;
        match self.write_line(line) {
            Ok(()) => Ok(()),
            Err(memory) => {
                self.unnote(begins);
                Err(memory)
            }
        }
    }

    /// Puts what was prepared in place, which takes no memory.
    pub(crate) fn put(&mut self, change: Change)
        requires { CanStand self.old.face.me self.old.face.count change.entered }
        ensures face { self.new.face ≡ face_entered self.old.face.me self.old.face.count change.entered }
        ensures state { self.new.state ≡ put_in_place change self.old.state }
    {
        let Change {
            effect,
            line: _,
            entered,
        } = change;
        self.take_changes(effect);
        self.forget_kept(&entered);
        self.install(entered);
    }

    /// Puts all that a work has prepared in place; where memory is wanting nothing has changed.
    pub fn commit(&mut self, change: Change) -> Result<(), Memory>
        requires { CanBeMade self.old change }
        ensures face { OnOk result (self.new.face ≡ face_entered self.old.face.me self.old.face.count change.entered) }
        ensures state { OnOk result (self.new.state ≡ entered_state (changed_by self.old.state change) change.entered) }
        ensures err { OnErr result (self.new ≡ self.old) }
    {
        match self.record(
            change.entered.begins,
            change.entered.at.execution,
            &change.line,
        ) {
            Ok(()) => {
                self.put(change);
                Ok(())
            }
            Err(memory) => {
                discard(change);
                Err(memory)
            }
        }
    }
}

/// Drops a change that isn't made.
fn discard(_change: Change) {}
