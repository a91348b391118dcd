ghost use Rattle.std.specs.Prelude.{◌≡◌, ℕ, ◌≤◌, ℤ, List, Some, None, drop, is_some, true, IfOk, IfSome, OnOk, OnErr};
ghost use Rattle.fd_program.specs.Layouts.{Scene, owners_by_map};
ghost use Rattle.chaos_dist.specs.Layout.{given_size};
ghost use Rattle.chaos_dist.specs.Owners.{regular_owners};
ghost use Rattle.chaos_dist.specs.declared.step_form.StepForm.TheVariants.{Regular, Map};
ghost use Rattle.fd_words.specs.Lists.{list_at};
ghost use Rattle.chaos_deref.specs.Asking.{joined};
ghost use Rattle.chaos_table.specs.Pages.{page_given};
ghost use Rattle.plan_run.specs.Phases.{moving_stages};
ghost use Rattle.chaos_moving.specs.Stages.{left_in, later_page, page_made, sent_by, stage_after, stage_in};
ghost use Rattle.chaos_moving.specs.IsMoving.{HasMap, HasMovedTo, HasShare, IsMoving, lists_moved, taken_in};

use crate::asks::{answer_lists, ask_lists, asked_lists};
use crate::counts::count_lists;
use crate::pairs::pair_lists;
use crate::regular::regular_places;
use crate::remap::{leaving, placed};
use crate::share::Share;
use chaos_deref::join_answers;
use chaos_dist::{Shape, StepForm};
use chaos_remap::Remapped;
use chaos_table::Pages;
use fd_words::{Memory, NumberLists, Numbers, Places};
use plan_run::Stage;
use std::alloc::Global;

/// How far a move has come on one node.
#[derive(Debug, Drop)]
pub enum MovingStage {
    /// The pairs of an element and its new owner that the map array with this number gives, by page.
    Pairing { array: u32, pairs: NumberLists },
    /// The pairs of this node's page, by sender.
    Counting { pairs: NumberLists },
    /// The new page is there.
    Asking,
    /// The elements of the page that each node asks for.
    Answering { asked: NumberLists },
    /// The new place of each element that the node had.
    Remapping { places: Places },
    Moved { part: Remapped },
}

/// A decomposition on one node while it is moved.
#[derive(Debug, Drop)]
pub struct Moving {
    pub share: Share,
    pub form: StepForm,
    pub page: Option<Pages>,
    pub stage: MovingStage,
}

/// What one node has of a decomposition after it was moved: its elements, ascending, the local part of
/// each of the decomposition's arrays, in array order, and its page where the new owners are a map's.
#[derive(Debug, Drop)]
pub struct Moved {
    pub elements: Numbers,
    pub pieces: NumberLists,
    pub page: Option<Pages>,
}

impl Moving {
    /// The move to a regular shape.
    pub fn by_shape(alloc: Global, share: Share, shape: Shape) -> Result<Moving, Memory>
        requires { 1 ≤ given_size shape }
        ensures share { IfOk result (λ x. x.share ≡ share) }
        ensures form { IfOk result (λ x. x.form ≡ Regular shape) }
        ensures stages { IfOk result (λ x. left_in x.stage ≡ moving_stages (Regular shape)) }
        ensures moving { IfOk result (λ x. (s : Scene) (owners : List (List ℕ)) (store : List (List ℤ)) → HasShare share s owners store
            → IsMoving x s owners store (regular_owners shape share.extent s.nodes)) }
    {
        let places = regular_places(alloc, &share, shape)?;
        Ok(Moving {
            share,
            form: StepForm::Regular(shape),
            page: None,
            stage: MovingStage::Remapping { places },
        })
    }

    /// The move to the owners that a map array names. `elements` has the elements of the array's
    /// decomposition on this node, ascending, and `values` the array's local part; element g of the array
    /// stands at element g + `offset` of its decomposition.
    pub fn by_map(
        alloc: Global,
        share: Share,
        array: u32,
        offset: u64,
        elements: &Numbers,
        values: &Numbers,
    ) -> Result<Moving, Memory>
        ensures share { IfOk result (λ x. x.share ≡ share) }
        ensures form { IfOk result (λ x. x.form ≡ Map array) }
        ensures stages { IfOk result (λ x. left_in x.stage ≡ moving_stages (Map array)) }
        ensures moving { IfOk result (λ x. (s : Scene) (owners : List (List ℕ)) (store : List (List ℤ)) → HasShare share s owners store
            → HasMap share s owners store array offset elements.now values.now
            → IsMoving x s owners store (owners_by_map s.nodes (list_at store array))) }
    {
        let pairs = pair_lists(alloc, &share, offset, elements, values)?;
        Ok(Moving {
            share,
            form: StepForm::Map(array),
            page: None,
            stage: MovingStage::Pairing { array, pairs },
        })
    }

    /// The stage of the next phase; none once all is moved.
    pub fn stage(&self) -> Option<Stage>
        ensures { result ≡ stage_in self.now.stage }
    {
        match self.stage {
            MovingStage::Pairing { array, .. } => Some(Stage::MapPairs(array)),
            MovingStage::Counting { .. } => Some(Stage::PageCounts),
            MovingStage::Asking => Some(Stage::MovingAsk),
            MovingStage::Answering { .. } => Some(Stage::MovingAnswer),
            MovingStage::Remapping { .. } => Some(Stage::Remap),
            MovingStage::Moved { .. } => None,
        }
    }

    /// What the node sends in this stage, one list per node, its own among them.
    pub fn outgoing(&self, alloc: Global) -> Result<NumberLists, Memory>
        ensures { IfOk result (λ lists. (s : Scene) (owners : List (List ℕ)) (store : List (List ℤ)) (new : List ℕ)
            → IsMoving self.now s owners store new
            → IfSome (stage_in self.now.stage) (λ stage. lists ≡ lists_moved s owners store self.now.share.decomposition new stage
            self.now.share.me)) }
    {
        let lists = self.lists(alloc)?;
        Ok(lists)
    }

    fn lists(&self, alloc: Global) -> Result<NumberLists, Memory>
        ensures { IfOk result (λ lists. lists ≡ sent_by self.now.share self.now.page self.now.stage) }
    {
        match &self.stage {
            MovingStage::Pairing { pairs, .. } => pairs.copy(alloc),
            MovingStage::Counting { pairs } => count_lists(alloc, &self.share, pairs),
            MovingStage::Asking => ask_lists(alloc, &self.share),
            MovingStage::Answering { asked } => answer_lists(alloc, &self.page, asked),
            MovingStage::Remapping { places } => leaving(alloc, &self.share, places),
            MovingStage::Moved { .. } => Ok(NumberLists::new(alloc)),
        }
    }

    /// Takes what the nodes sent in this stage, one list per node, and goes on to the next.
    pub fn incoming(&mut self, alloc: Global, taken: NumberLists) -> Result<(), Memory>
        requires { is_some (stage_in self.old.stage) ≡ true }
        ensures share { self.new.share ≡ self.old.share }
        ensures form { self.new.form ≡ self.old.form }
        ensures stages { OnOk result (left_in self.new.stage ≡ drop 1 (left_in self.old.stage)) }
        ensures moving { OnOk result ((s : Scene) (owners : List (List ℕ)) (store : List (List ℤ)) (new : List ℕ)
            → IsMoving self.old s owners store new
            → IfSome (stage_in self.old.stage) (λ stage. taken ≡ taken_in s owners store self.old.share.decomposition new stage
            self.old.share.me)
            → IsMoving self.new s owners store new) }
        ensures err { OnErr result (self.new ≡ self.old) }
    {
        let page = self.page_made(alloc, &taken)?;
        let stage = self.stage_after(alloc, taken)?;
        self.turn(page, stage);
        Ok(())
    }

    fn turn(&mut self, page: Option<Pages>, stage: MovingStage)
        ensures share { self.new.share ≡ self.old.share }
        ensures form { self.new.form ≡ self.old.form }
        ensures page { self.new.page ≡ later_page page self.old.page }
        ensures stage { self.new.stage ≡ stage }
    {
        self.stage = stage;
        if page.is_some() {
            self.page = page;
        }
    }

    fn page_made(&self, alloc: Global, taken: &NumberLists) -> Result<Option<Pages>, Memory>
        ensures { IfOk result (λ page. page ≡ page_made self.now.share self.now.stage taken.now) }
    {
        match &self.stage {
            MovingStage::Counting { pairs } => page_of_all(alloc, &self.share, pairs, taken),
            _ => Ok(None),
        }
    }

    fn stage_after(&self, alloc: Global, taken: NumberLists) -> Result<MovingStage, Memory>
        requires { is_some (stage_in self.now.stage) ≡ true }
        ensures { IfOk result (λ stage. stage ≡ stage_after self.now.share self.now.stage taken) }
    {
        match &self.stage {
            MovingStage::Pairing { .. } => Ok(MovingStage::Counting { pairs: taken }),
            MovingStage::Counting { .. } => Ok(MovingStage::Asking),
            MovingStage::Asking => {
                let asked = asked_lists(alloc, &taken)?;
                Ok(MovingStage::Answering { asked })
            }
            MovingStage::Answering { .. } => {
                let places = answered(alloc, &self.share, &taken)?;
                Ok(MovingStage::Remapping { places })
            }
            MovingStage::Remapping { .. } => {
                let part = placed(alloc, &self.share, &taken)?;
                Ok(MovingStage::Moved { part })
            }
            MovingStage::Moved { .. } => unreachable!(),
        }
    }

    /// What the node has once all is moved.
    pub fn finish(self) -> Moved
        requires { stage_in self.stage ≡ None }
        ensures { (s : Scene) (owners : List (List ℕ)) (store : List (List ℤ)) (new : List ℕ) → IsMoving self s owners store new
            → HasMovedTo result s store self.share.decomposition self.form new self.share.me }
    {
        let Moving {
            share: _,
            form: _,
            page,
            stage,
        } = self;
        match stage {
            MovingStage::Moved { part } => with_page(page, part),
            _ => unreachable!(),
        }
    }
}

fn with_page(page: Option<Pages>, part: Remapped) -> Moved
    ensures elements { result.elements ≡ part.elements }
    ensures pieces { result.pieces ≡ part.pieces }
    ensures page { result.page ≡ page }
{
    Moved {
        elements: part.elements,
        pieces: part.pieces,
        page,
    }
}

/// This node's page, from all pairs of its elements and the counts of all pages.
fn page_of_all(
    alloc: Global,
    share: &Share,
    pairs: &NumberLists,
    counts: &NumberLists,
) -> Result<Option<Pages>, Memory>
    ensures { IfOk result (λ page. page ≡ Some (page_given share.now.extent share.now.nodes share.now.me pairs.now counts.now)) }
{
    let page = Pages::install(alloc, share.extent, share.nodes, share.me, pairs, counts)?;
    Ok(Some(page))
}

/// The new place of each element that the node had.
fn answered(alloc: Global, share: &Share, taken: &NumberLists) -> Result<Places, Memory>
    ensures { IfOk result (λ places. places ≡ joined share.now.extent share.now.nodes share.now.elements taken.now) }
{
    join_answers(alloc, share.extent, share.nodes, &share.elements, taken)
}
