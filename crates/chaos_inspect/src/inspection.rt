ghost use Rattle.std.specs.Prelude.{◌≡◌, ◌<◌, ◌≤◌, ℕ, ℤ, false, List, length, map, Some, None, IfOk, OnOk, OnErr};
ghost use Rattle.std.specs.Option.{option_map};
ghost use Rattle.chaos_hash.specs.Stamps.{Stamps};
ghost use Rattle.chaos_inspect.specs.Inspecting.{Follows, HasNoOffence, HasSpots, HasValues, IsDue, IsInspecting, IsNext, IsOwed, IsReady};
ghost use Rattle.chaos_inspect.specs.Inspecting.{AreKnown, IsGiven, StaysKept, IsSame};
ghost use Rattle.chaos_inspect.specs.Inspecting.{IsSeeking, IsVoted, first_phase, first_stage, prepared_in, offence_in, phase_of};
ghost use Rattle.chaos_inspect.specs.Met.{firsts_of, places_asked, rows_of};
ghost use Rattle.chaos_inspect.specs.declared.stage.Stage.TheVariants as stage;
ghost use Rattle.fd_program.specs.Places.{parts_of};
ghost use Rattle.fd_program.specs.Uses.{read_of};
ghost use Rattle.inspect_places.specs.Asks.{ArePages};
ghost use Rattle.inspect_uses.specs.Accepted.{AreOwners, IsAccepted};
ghost use Rattle.plan_loop.specs.LoopLetters.{asks_places, indexes_of, kind_in_loop, owed_in, sent_in};
ghost use Rattle.plan_loop.specs.declared.loop_phase.Asking.{Asking as AskingOf};
ghost use Rattle.plan_loop.specs.declared.loop_phase.Asking.TheVariants as round;
ghost use Rattle.plan_loop.specs.declared.loop_phase.Level.{Level as LevelOf};
ghost use Rattle.plan_loop.specs.declared.loop_phase.Level.TheVariants as levels;
ghost use Rattle.plan_loop.specs.declared.loop_phase.LoopPhase.TheVariants as phase;
ghost use Rattle.plan_tables.specs.Fits.{Fits};
ghost use Rattle.plan_tables.specs.Tables.{HasPlaces, IsEntered, KeepsOtherStamps, slots_entered};

use crate::spot::Spots;
use crate::stage::Stage;
use crate::{homes, index, range, round, spot, votes, weave};
use chaos_letter::Kind;
use chaos_sched::Prepared;
use fd_program::LoopFacts;
use fd_words::{Memory, NumberLists, Numbers, Offence, Place, Places};
use inspect_enter::{enter, uses_to_place};
use inspect_places::{Asked, PageSet};
use node_tables::TableSet;
use plan_loop::{Asking, Level, LoopPhase};
use std::alloc::Global;

/// One inspection of a FORALL on one node.
#[derive(Drop)]
pub struct Inspection {
    pub facts: LoopFacts,
    pub me: u32,
    /// The iterations that this node inspects.
    pub mine: Numbers,
    /// The places that it asks for, in a round of asking.
    pub asked: Asked,
    /// Where the elements stand that their index references reach, once no place of theirs is wanting.
    pub spots: Spots,
    /// What they give, once the values are here.
    pub values: Numbers,
    /// The rows of the iterations whose home is here, while places are asked for.
    pub rows: Numbers,
    pub stage: Stage,
}

/// Where an inspection begins.
fn first(seeks: bool, has_indexes: bool) -> Stage
    ensures { result ≡ first_stage seeks has_indexes }
{
    if seeks {
        Stage::Seeking(Asking::Indexes(Level::First))
    } else if has_indexes {
        Stage::Fetching(Level::First)
    } else {
        Stage::Voting
    }
}

impl Inspection {
    /// An inspection of this loop on node `me`, before its first phase.
    pub fn begin(alloc: Global, facts: LoopFacts, me: u32) -> Result<Inspection, Memory>
        requires accepted { IsAccepted facts }
        requires few { length facts.arrays ≤ 64 }
        requires node { me < facts.nodes }
        ensures facts { IfOk result (λ x. x.facts ≡ facts) }
        ensures me { IfOk result (λ x. x.me ≡ me) }
        ensures phase { IfOk result (λ x. phase_of x.stage ≡ Some (first_phase facts)) }
        ensures offence { IfOk result (λ x. offence_in x.stage ≡ None) }
        ensures inspecting { IfOk result (λ x. (owners : List (List ℕ)) (store : List (List ℤ)) (tables : List Stamps)
            → AreOwners facts owners → IsInspecting x owners store tables) }
    {
        let mine = range::inspected(alloc, &facts, me)?;
        let seeks = round::asks(&facts, Asking::Indexes(Level::First));
        let asked = round::first_asked(alloc, &facts, seeks, mine.as_slice())?;
        let spots = spot::first_spots(alloc, &facts, seeks, mine.as_slice())?;
        let fetches = round::has(&facts, Level::First);
        let stage = first(seeks, fetches);
        Ok(Inspection {
            facts,
            me,
            mine,
            asked,
            spots,
            values: Numbers::new(alloc),
            rows: Numbers::new(alloc),
            stage,
        })
    }

    /// An equal inspection, where these are equal facts.
    pub fn copy(&self, alloc: Global, facts: LoopFacts) -> Result<Inspection, Memory>
        ensures { IfOk result (λ x. facts ≡ self.now.facts → x ≡ self.now) }
    {
        Ok(Inspection {
            facts,
            me: self.me,
            mine: self.mine.copy(alloc)?,
            asked: self.asked.copy(alloc)?,
            spots: Spots::from_slice(alloc, self.spots.as_slice())?,
            values: self.values.copy(alloc)?,
            rows: self.rows.copy(alloc)?,
            stage: self.stage.copy(alloc)?,
        })
    }

    /// The phase that is due; none where a node had an offence, or the inspection is at its end.
    pub fn phase(&self) -> Option<LoopPhase>
        ensures { result ≡ phase_of self.now.stage }
    {
        match &self.stage {
            Stage::Seeking(asking) => Some(LoopPhase::DerefAsk(*asking)),
            Stage::Telling(asking, _) => Some(LoopPhase::DerefAnswer(*asking)),
            Stage::Fetching(level) => Some(LoopPhase::IndexAsk(*level)),
            Stage::Answering(level, _) => Some(LoopPhase::IndexValues(*level)),
            Stage::Voting => Some(LoopPhase::Vote),
            Stage::Refused(_) => None,
            Stage::Homing(_) => Some(LoopPhase::Iterations),
            Stage::Entered(_) => Some(LoopPhase::ScheduleAsk),
            Stage::Ready(_) => None,
        }
    }

    /// The kind of the next phase; none where a node had an offence, or the inspection is at its end.
    pub fn wants(&self) -> Option<Kind>
        ensures { result ≡ option_map kind_in_loop (phase_of self.now.stage) }
    {
        match self.phase() {
            Some(phase) => Some(phase.kind()),
            None => None,
        }
    }

    /// The offence, where a node had one.
    pub fn offence(&self) -> Option<Offence>
        ensures { result ≡ offence_in self.now.stage }
    {
        match &self.stage {
            Stage::Seeking(_) => None,
            Stage::Telling(_, _) => None,
            Stage::Fetching(_) => None,
            Stage::Answering(_, _) => None,
            Stage::Voting => None,
            Stage::Refused(offence) => Some(*offence),
            Stage::Homing(_) => None,
            Stage::Entered(_) => None,
            Stage::Ready(_) => None,
        }
    }

    // ---- letters

    /// The asks for places, to the nodes that keep the pages.
    fn place_asks(&self, alloc: Global) -> Result<NumberLists, Memory>
        ensures { IfOk result (λ lists. (owners : List (List ℕ)) (store : List (List ℤ)) (asking : AskingOf)
            → IsSeeking self.now owners store asking
            → lists ≡ sent_in self.now.facts owners store (phase.DerefAsk asking) self.now.me) }
    {
        self.asked.asks(alloc, &self.facts)
    }

    /// The asks for the values of index arrays.
    fn asks(&self, alloc: Global) -> Result<NumberLists, Memory>
        requires { IsAccepted self.now.facts }
        ensures { IfOk result (λ lists. (owners : List (List ℕ)) (store : List (List ℤ)) (tables : List Stamps) (level : LevelOf)
            → IsInspecting self.now owners store tables → HasSpots self.now owners store level
            → lists ≡ sent_in self.now.facts owners store (phase.IndexAsk level) self.now.me) }
    {
        index::asks(alloc, self.facts.nodes, self.spots.as_slice())
    }

    /// The values that the other nodes asked for.
    fn answers(
        &self,
        alloc: Global,
        pieces: &NumberLists,
        asked: &[Numbers],
    ) -> Result<NumberLists, Memory>
        requires { IsAccepted self.now.facts }
        ensures { IfOk result (λ lists. (owners : List (List ℕ)) (store : List (List ℤ)) (tables : List Stamps) (level : LevelOf)
            → IsInspecting self.now owners store tables
            → pieces.now ≡ parts_of self.now.facts.arrays owners store self.now.me
            → asked.now ≡ owed_in self.now.facts owners store (phase.IndexAsk level) self.now.me
            → lists ≡ sent_in self.now.facts owners store (phase.IndexValues level) self.now.me) }
    {
        index::told(alloc, pieces, asked)
    }

    /// The least offence among the iterations that this node inspects, to all.
    fn votes(&self, alloc: Global) -> Result<NumberLists, Memory>
        requires { IsAccepted self.now.facts }
        ensures { IfOk result (λ lists. (owners : List (List ℕ)) (store : List (List ℤ)) (tables : List Stamps)
            → IsInspecting self.now owners store tables
            → HasValues self.now store
            → lists ≡ sent_in self.now.facts owners store phase.Vote self.now.me) }
    {
        let vote = votes::own_vote(
            alloc,
            &self.facts,
            self.mine.as_slice(),
            self.values.as_slice(),
        )?;
        let numbers = chaos_vote::numbers_of(alloc, vote)?;
        votes::to_all(alloc, self.facts.nodes, &numbers)
    }

    /// The iterations that this node inspects, to their homes.
    fn home_rows(&self, alloc: Global, told: &[Place]) -> Result<NumberLists, Memory>
        requires { IsAccepted self.now.facts }
        ensures { IfOk result (λ lists. (owners : List (List ℕ)) (store : List (List ℤ)) (tables : List Stamps)
            → IsInspecting self.now owners store tables
            → HasValues self.now store → HasNoOffence self.now store → told.now ≡ places_asked self.now.facts owners store round.Homes
            self.now.me
            → lists ≡ sent_in self.now.facts owners store phase.Iterations self.now.me) }
    {
        homes::homed(
            alloc,
            &self.facts,
            self.mine.as_slice(),
            self.values.as_slice(),
            told,
        )
    }

    /// The letters of the phase that is due, a list for each node; `pieces` has this node's parts of the
    /// arrays, and `pages` its pages of the decompositions with a map. No list where no phase is due.
    pub fn outgoing(
        &self,
        alloc: Global,
        pieces: &NumberLists,
        pages: &PageSet,
    ) -> Result<NumberLists, Memory>
        requires { IsAccepted self.now.facts }
        ensures { IfOk result (λ lists. (owners : List (List ℕ)) (store : List (List ℤ)) (tables : List Stamps)
            → IsInspecting self.now owners store tables
            → pieces.now ≡ parts_of self.now.facts.arrays owners store self.now.me → ArePages self.now.facts self.now.me owners pages.now
            → IsDue self.now owners store lists) }
    {
        match &self.stage {
            Stage::Seeking(_) => self.place_asks(alloc),
            Stage::Telling(_, asked) => inspect_places::answers(alloc, &self.facts, pages, asked),
            Stage::Fetching(_) => self.asks(alloc),
            Stage::Answering(_, asked) => self.answers(alloc, pieces, asked.as_slice()),
            Stage::Voting => self.votes(alloc),
            Stage::Refused(_) => Ok(NumberLists::new(alloc)),
            Stage::Homing(told) => self.home_rows(alloc, told.as_slice()),
            Stage::Entered(entering) => entering.asks(alloc, &self.facts),
            Stage::Ready(_) => Ok(NumberLists::new(alloc)),
        }
    }

    // ---- ends of phases

    /// The other nodes' asks for places are here.
    fn take_place_asks(
        &mut self,
        alloc: Global,
        asking: Asking,
        taken: &NumberLists,
    ) -> Result<(), Memory>
        ensures same { IsSame self.old self.new result }
        ensures next { OnOk result (Follows self.old.facts (phase.DerefAsk asking) self.new.stage) }
        ensures inspecting { OnOk result ((owners : List (List ℕ)) (store : List (List ℤ)) (tables : List Stamps)
            → IsInspecting self.old owners store tables → IsSeeking self.old owners store asking
            → taken.now ≡ owed_in self.old.facts owners store (phase.DerefAsk asking) self.old.me
            → IsInspecting self.new owners store tables) }
    {
        let asked = taken.copy(alloc)?;
        self.stage = Stage::Telling(asking, asked);
        Ok(())
    }

    /// These are the places of a level's index references.
    fn find_indexes(&mut self, alloc: Global, level: Level, told: &[Place]) -> Result<(), Memory>
        requires { IsAccepted self.old.facts }
        ensures same { IsSame self.old self.new result }
        ensures next { OnOk result (Follows self.old.facts (phase.DerefAnswer (round.Indexes level)) self.new.stage) }
        ensures inspecting { OnOk result ((owners : List (List ℕ)) (store : List (List ℤ)) (tables : List Stamps)
            → IsInspecting self.old owners store tables → AreKnown self.old.facts store self.old.me level self.old.values
            → told.now ≡ places_asked self.old.facts owners store (round.Indexes level) self.old.me
            → IsInspecting self.new owners store tables) }
    {
        let spots = spot::spots(
            alloc,
            &self.facts,
            level,
            self.mine.as_slice(),
            self.values.as_slice(),
            told,
        )?;
        self.spots = spots;
        self.stage = Stage::Fetching(level);
        Ok(())
    }

    /// These are the places of the references of the rows in hand: enters them in the tables.
    fn enter_told(
        &mut self,
        alloc: Global,
        told: &[Place],
        tables: &mut TableSet,
    ) -> Result<(), Memory>
        requires { IsGiven self.old.facts tables.old }
        ensures kept { StaysKept self.old self.new tables.old tables.new result }
        ensures next { OnOk result (Follows self.old.facts (phase.DerefAnswer round.References) self.new.stage) }
        ensures inspecting { OnOk result ((owners : List (List ℕ)) (store : List (List ℤ)) (before : List Stamps)
            → IsInspecting self.old owners store before
            → IsSeeking self.old owners store round.References → told.now ≡ places_asked self.old.facts owners store round.References
            self.old.me
            → IsInspecting self.new owners store tables.new) }
        ensures places { (owners : List (List ℕ)) (store : List (List ℤ)) (before : List Stamps) → IsInspecting self.old owners store before
            → IsSeeking self.old owners store round.References → told.now ≡ places_asked self.old.facts owners store round.References
            self.old.me
            → HasPlaces owners tables.old → HasPlaces owners tables.new }
    {
        let entering = enter(
            alloc,
            &self.facts,
            self.me,
            self.rows.as_slice(),
            told,
            tables,
        )?;
        self.stage = Stage::Entered(entering);
        Ok(())
    }

    /// The places that were asked for in this round.
    fn told(&self, alloc: Global, taken: &NumberLists) -> Result<Places, Memory>
        requires { IsAccepted self.now.facts }
        ensures { IfOk result (λ places. (owners : List (List ℕ)) (store : List (List ℤ)) (asking : AskingOf)
            → AreOwners self.now.facts owners
            → IsSeeking self.now owners store asking → taken.now ≡ owed_in self.now.facts owners store (phase.DerefAnswer asking)
            self.now.me
            → places ≡ places_asked self.now.facts owners store asking self.now.me) }
    {
        self.asked.places(alloc, &self.facts, taken)
    }

    /// The places that were asked for are told.
    fn take_places(
        &mut self,
        alloc: Global,
        taken: &NumberLists,
        tables: &mut TableSet,
        asking: Asking,
    ) -> Result<(), Memory>
        requires { IsGiven self.old.facts tables.old }
        ensures kept { StaysKept self.old self.new tables.old tables.new result }
        ensures next { OnOk result (Follows self.old.facts (phase.DerefAnswer asking) self.new.stage) }
        ensures inspecting { OnOk result ((owners : List (List ℕ)) (store : List (List ℤ)) → IsInspecting self.old owners store tables.old
            → IsSeeking self.old owners store asking → taken.now ≡ owed_in self.old.facts owners store (phase.DerefAnswer asking)
            self.old.me
            → IsInspecting self.new owners store tables.new) }
        ensures places { (owners : List (List ℕ)) (store : List (List ℤ)) → IsInspecting self.old owners store tables.old
            → IsSeeking self.old owners store asking → taken.now ≡ owed_in self.old.facts owners store (phase.DerefAnswer asking)
            self.old.me
            → HasPlaces owners tables.old → HasPlaces owners tables.new }
    {
        let told = self.told(alloc, taken)?;
        match asking {
            Asking::Indexes(level) => self.find_indexes(alloc, level, told.as_slice()),
            Asking::Homes => {
                self.stage = Stage::Homing(told);
                Ok(())
            }
            Asking::References => self.enter_told(alloc, told.as_slice(), tables),
        }
    }

    /// The other nodes' asks for values of a level's index arrays are here.
    fn take_asks(&mut self, alloc: Global, level: Level, taken: &NumberLists) -> Result<(), Memory>
        ensures same { IsSame self.old self.new result }
        ensures next { OnOk result (Follows self.old.facts (phase.IndexAsk level) self.new.stage) }
        ensures inspecting { OnOk result ((owners : List (List ℕ)) (store : List (List ℤ)) (tables : List Stamps)
            → IsInspecting self.old owners store tables → HasSpots self.old owners store level
            → AreKnown self.old.facts store self.old.me level self.old.values
            → taken.now ≡ owed_in self.old.facts owners store (phase.IndexAsk level) self.old.me
            → IsInspecting self.new owners store tables) }
    {
        let asked = taken.copy(alloc)?;
        self.stage = Stage::Answering(level, asked);
        Ok(())
    }

    /// Asks for the places of the second level's index references, where those of the first give these
    /// values.
    fn seek_second(&mut self, alloc: Global, values: Numbers) -> Result<(), Memory>
        requires { IsAccepted self.old.facts }
        ensures same { IsSame self.old self.new result }
        ensures stage { OnOk result ((offence_in self.new.stage ≡ None)
            × (phase_of self.new.stage ≡ Some (phase.DerefAsk (round.Indexes levels.Second)))) }
        ensures inspecting { OnOk result ((owners : List (List ℕ)) (store : List (List ℤ)) (tables : List Stamps)
            → IsInspecting self.old owners store tables → values ≡ firsts_of self.old.facts store self.old.me
            → IsInspecting self.new owners store tables) }
    {
        let asked = round::level_asked(
            alloc,
            &self.facts,
            Level::Second,
            self.mine.as_slice(),
            values.as_slice(),
        )?;
        self.asked = asked;
        self.values = values;
        self.stage = Stage::Seeking(Asking::Indexes(Level::Second));
        Ok(())
    }

    /// Finds the second level's index references by formula, where those of the first give these values.
    fn find_second(&mut self, alloc: Global, values: Numbers) -> Result<(), Memory>
        requires { IsAccepted self.old.facts }
        ensures same { IsSame self.old self.new result }
        ensures stage { OnOk result ((offence_in self.new.stage ≡ None)
            × (phase_of self.new.stage ≡ Some (phase.IndexAsk levels.Second))) }
        ensures inspecting { OnOk result ((owners : List (List ℕ)) (store : List (List ℤ)) (tables : List Stamps)
            → IsInspecting self.old owners store tables → values ≡ firsts_of self.old.facts store self.old.me
            → asks_places self.old.facts (round.Indexes levels.Second) ≡ false
            → IsInspecting self.new owners store tables) }
    {
        let spots = spot::spots(
            alloc,
            &self.facts,
            Level::Second,
            self.mine.as_slice(),
            values.as_slice(),
            &[],
        )?;
        self.spots = spots;
        self.values = values;
        self.stage = Stage::Fetching(Level::Second);
        Ok(())
    }

    /// These are the values of the first level: fetches those of the second, or goes on to the votes.
    fn fetch_second(&mut self, alloc: Global, values: Numbers) -> Result<(), Memory>
        requires { IsAccepted self.old.facts }
        ensures same { IsSame self.old self.new result }
        ensures next { OnOk result (Follows self.old.facts (phase.IndexValues levels.First) self.new.stage) }
        ensures inspecting { OnOk result ((owners : List (List ℕ)) (store : List (List ℤ)) (tables : List Stamps)
            → IsInspecting self.old owners store tables → values ≡ firsts_of self.old.facts store self.old.me
            → IsInspecting self.new owners store tables) }
    {
        if round::asks(&self.facts, Asking::Indexes(Level::Second)) {
            self.seek_second(alloc, values)
        } else if round::has(&self.facts, Level::Second) {
            self.find_second(alloc, values)
        } else {
            self.values = values;
            self.stage = Stage::Voting;
            Ok(())
        }
    }

    /// These are the values of the second level: puts both levels' into one list.
    fn weave(&mut self, alloc: Global, seconds: &[i64]) -> Result<(), Memory>
        requires { IsAccepted self.old.facts }
        ensures same { IsSame self.old self.new result }
        ensures next { OnOk result (Follows self.old.facts (phase.IndexValues levels.Second) self.new.stage) }
        ensures inspecting { OnOk result ((owners : List (List ℕ)) (store : List (List ℤ)) (tables : List Stamps)
            → IsInspecting self.old owners store tables → AreKnown self.old.facts store self.old.me levels.Second self.old.values
            → seconds.now ≡ map (read_of store) (indexes_of self.old.facts store levels.Second self.old.me)
            → IsInspecting self.new owners store tables) }
    {
        let uses = weave::index_uses(
            alloc,
            &self.facts,
            self.mine.as_slice(),
            self.values.as_slice(),
        )?;
        let values = weave::woven(alloc, uses.as_slice(), self.values.as_slice(), seconds)?;
        self.values = values;
        self.stage = Stage::Voting;
        Ok(())
    }

    /// The values of a level's index arrays are here.
    fn take_values(
        &mut self,
        alloc: Global,
        level: Level,
        taken: &NumberLists,
    ) -> Result<(), Memory>
        requires { IsAccepted self.old.facts }
        ensures same { IsSame self.old self.new result }
        ensures next { OnOk result (Follows self.old.facts (phase.IndexValues level) self.new.stage) }
        ensures inspecting { OnOk result ((owners : List (List ℕ)) (store : List (List ℤ)) (tables : List Stamps)
            → IsInspecting self.old owners store tables → HasSpots self.old owners store level
            → AreKnown self.old.facts store self.old.me level self.old.values
            → taken.now ≡ owed_in self.old.facts owners store (phase.IndexValues level) self.old.me
            → IsInspecting self.new owners store tables) }
    {
        let values = index::values(alloc, self.spots.as_slice(), taken)?;
        match level {
            Level::First => self.fetch_second(alloc, values),
            Level::Second => self.weave(alloc, values.as_slice()),
        }
    }

    /// Asks for the places of the references that tell homes.
    fn seek_homes(&mut self, alloc: Global) -> Result<(), Memory>
        requires { IsAccepted self.old.facts }
        ensures same { IsSame self.old self.new result }
        ensures stage { OnOk result ((offence_in self.new.stage ≡ None) × (phase_of self.new.stage ≡ Some (phase.DerefAsk round.Homes))) }
        ensures inspecting { OnOk result ((owners : List (List ℕ)) (store : List (List ℤ)) (tables : List Stamps)
            → IsInspecting self.old owners store tables → HasValues self.old store
            → HasNoOffence self.old store → IsInspecting self.new owners store tables) }
    {
        let asked = round::asked(
            alloc,
            &self.facts,
            Asking::Homes,
            self.mine.as_slice(),
            self.values.as_slice(),
        )?;
        self.asked = asked;
        self.stage = Stage::Seeking(Asking::Homes);
        Ok(())
    }

    /// No node had an offence: iterations go to their homes.
    fn go_home(&mut self, alloc: Global) -> Result<(), Memory>
        requires { IsAccepted self.old.facts }
        ensures same { IsSame self.old self.new result }
        ensures next { OnOk result (Follows self.old.facts phase.Vote self.new.stage) }
        ensures inspecting { OnOk result ((owners : List (List ℕ)) (store : List (List ℤ)) (tables : List Stamps)
            → IsInspecting self.old owners store tables → HasValues self.old store
            → HasNoOffence self.old store → IsInspecting self.new owners store tables) }
    {
        if round::asks(&self.facts, Asking::Homes) {
            self.seek_homes(alloc)
        } else {
            self.stage = Stage::Homing(Places::new(alloc));
            Ok(())
        }
    }

    fn take_votes(&mut self, alloc: Global, taken: &NumberLists) -> Result<(), Memory>
        requires { IsAccepted self.old.facts }
        ensures next { OnOk result (IsNext self.old.facts stage.Voting self.new.stage) }
        ensures same { IsSame self.old self.new result }
        ensures inspecting { OnOk result ((owners : List (List ℕ)) (store : List (List ℤ)) (tables : List Stamps)
            → IsInspecting self.old owners store tables → HasValues self.old store
            → taken.now ≡ owed_in self.old.facts owners store phase.Vote self.old.me → IsInspecting self.new owners store tables) }
    {
        let vote = votes::least_told(alloc, taken.as_slice())?;
        match vote {
            Some(offence) => {
                self.stage = Stage::Refused(offence);
                Ok(())
            }
            None => self.go_home(alloc),
        }
    }

    /// Asks for the places of these rows' references.
    fn seek_references(&mut self, alloc: Global, rows: Numbers) -> Result<(), Memory>
        requires { IsAccepted self.old.facts }
        ensures same { IsSame self.old self.new result }
        ensures stage { OnOk result ((offence_in self.new.stage ≡ None)
            × (phase_of self.new.stage ≡ Some (phase.DerefAsk round.References))) }
        ensures inspecting { OnOk result ((owners : List (List ℕ)) (store : List (List ℤ)) (tables : List Stamps)
            → IsInspecting self.old owners store tables
            → HasNoOffence self.old store → rows ≡ rows_of self.old.facts owners store self.old.me
            → IsInspecting self.new owners store tables) }
    {
        let uses = uses_to_place(alloc, &self.facts, rows.as_slice())?;
        let asked = Asked::new(alloc, &self.facts, uses.as_slice())?;
        self.asked = asked;
        self.rows = rows;
        self.stage = Stage::Seeking(Asking::References);
        Ok(())
    }

    /// Enters these rows' references, whose places are all told by formula, in the tables.
    fn enter_rows(
        &mut self,
        alloc: Global,
        tables: &mut TableSet,
        rows: &[i64],
    ) -> Result<(), Memory>
        requires { IsGiven self.old.facts tables.old }
        ensures kept { StaysKept self.old self.new tables.old tables.new result }
        ensures stage { OnOk result ((offence_in self.new.stage ≡ None) × (phase_of self.new.stage ≡ Some phase.ScheduleAsk)) }
        ensures inspecting { OnOk result ((owners : List (List ℕ)) (store : List (List ℤ)) (before : List Stamps)
            → IsInspecting self.old owners store before
            → HasNoOffence self.old store → rows.now ≡ rows_of self.old.facts owners store self.old.me
            → asks_places self.old.facts round.References ≡ false
            → IsInspecting self.new owners store tables.new) }
        ensures places { (owners : List (List ℕ)) (store : List (List ℤ)) (before : List Stamps) → IsInspecting self.old owners store before
            → HasNoOffence self.old store → rows.now ≡ rows_of self.old.facts owners store self.old.me
            → asks_places self.old.facts round.References ≡ false
            → HasPlaces owners tables.old → HasPlaces owners tables.new }
    {
        let entering = enter(alloc, &self.facts, self.me, rows, &[], tables)?;
        self.stage = Stage::Entered(entering);
        Ok(())
    }

    /// The rows of the iterations whose home is here: asks for the places of their references, or
    /// enters these in the tables.
    fn take_rows(
        &mut self,
        alloc: Global,
        taken: &NumberLists,
        tables: &mut TableSet,
    ) -> Result<(), Memory>
        requires { IsGiven self.old.facts tables.old }
        ensures kept { StaysKept self.old self.new tables.old tables.new result }
        ensures next { OnOk result (Follows self.old.facts phase.Iterations self.new.stage) }
        ensures inspecting { OnOk result ((owners : List (List ℕ)) (store : List (List ℤ)) → IsInspecting self.old owners store tables.old
            → HasNoOffence self.old store → taken.now ≡ owed_in self.old.facts owners store phase.Iterations self.old.me
            → IsInspecting self.new owners store tables.new) }
        ensures places { (owners : List (List ℕ)) (store : List (List ℤ)) → IsInspecting self.old owners store tables.old
            → HasNoOffence self.old store → taken.now ≡ owed_in self.old.facts owners store phase.Iterations self.old.me
            → HasPlaces owners tables.old → HasPlaces owners tables.new }
    {
        let rows = homes::joined(alloc, taken.as_slice())?;
        if round::asks(&self.facts, Asking::References) {
            self.seek_references(alloc, rows)
        } else {
            self.enter_rows(alloc, tables, rows.as_slice())
        }
    }

    /// Ends the phase that is due, with the letters of all nodes. Where memory is wanting the inspection is
    /// unchanged; in the tables stamps of this loop may have been cleared and entered.
    pub fn incoming(
        &mut self,
        alloc: Global,
        taken: &NumberLists,
        tables: &mut TableSet,
    ) -> Result<(), Memory>
        requires accepted { IsAccepted self.old.facts }
        requires tables { length tables.old ≡ length self.old.facts.layouts }
        ensures facts { self.new.facts ≡ self.old.facts }
        ensures me { self.new.me ≡ self.old.me }
        ensures err { OnErr result (self.new ≡ self.old) }
        ensures next { OnOk result (IsNext self.old.facts self.old.stage self.new.stage) }
        ensures votes { OnOk result (IsVoted self.old.stage self.new.stage) }
        ensures inspecting { OnOk result ((owners : List (List ℕ)) (store : List (List ℤ)) → IsInspecting self.old owners store tables.old
            → IsOwed self.old owners store taken.now → IsInspecting self.new owners store tables.new) }
        ensures places { (owners : List (List ℕ)) (store : List (List ℤ)) → IsInspecting self.old owners store tables.old
            → IsOwed self.old owners store taken.now → HasPlaces owners tables.old → HasPlaces owners tables.new }
        ensures others { KeepsOtherStamps self.old.facts tables.old tables.new }
        ensures count { length tables.new ≡ length tables.old }
    {
        match &self.stage {
            Stage::Seeking(asking) => {
                let asking = *asking;
                self.take_place_asks(alloc, asking, taken)
            }
            Stage::Telling(asking, _) => {
                let asking = *asking;
                self.take_places(alloc, taken, tables, asking)
            }
            Stage::Fetching(level) => {
                let level = *level;
                self.take_asks(alloc, level, taken)
            }
            Stage::Answering(level, _) => {
                let level = *level;
                self.take_values(alloc, level, taken)
            }
            Stage::Voting => self.take_votes(alloc, taken),
            Stage::Refused(_) => Ok(()),
            Stage::Homing(_) => self.take_rows(alloc, taken, tables),
            Stage::Entered(entering) => {
                let prepared = entering.finish(alloc, &self.facts, taken)?;
                self.stage = Stage::Ready(prepared);
                Ok(())
            }
            Stage::Ready(_) => Ok(()),
        }
    }

    /// What is prepared: the iterations whose home is here, their references, and the schedule.
    pub fn finish(self) -> Prepared
        requires { IsReady self.stage }
        ensures prepared { prepared_in self.stage ≡ Some result }
        ensures fits { (owners : List (List ℕ)) (store : List (List ℤ)) (tables : List Stamps) → IsInspecting self owners store tables
            → Fits self.facts owners store (slots_entered self.facts tables) self.me result
            × IsEntered self.facts owners store self.me tables }
    {
        let Inspection {
            facts: _,
            me: _,
            mine: _,
            asked: _,
            spots: _,
            values: _,
            rows: _,
            stage,
        } = self;
        match stage {
            Stage::Ready(prepared) => prepared,
            _ => unreachable!(),
        }
    }
}
