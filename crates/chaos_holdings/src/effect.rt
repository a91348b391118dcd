ghost use Rattle.std.specs.Prelude.{◌≡◌, slice_set, Some};
ghost use Rattle.plan_tables.specs.Tables.{dropped_in};
ghost use Rattle.chaos_holdings.specs.Effects.{end_after, holdings_after, kept_with};
ghost use Rattle.chaos_holdings.specs.Keeping.{with_given_up};

use crate::holdings::Holdings;
use crate::session::NodeEnd;
use chaos_moving::Moved;
use chaos_records::Records;
use fd_program::{Checked, Refused, SiteCount};
use fd_words::NumberLists;
use node_tables::TableSet;
use plan_run::Kept;

/// What the end of a phase changes beside the node's place.
#[derive(Drop)]
pub enum Effect {
    Nothing,
    /// A decomposition stands by new owners, with these parts of all arrays.
    Moves {
        decomposition: u32,
        moved: Moved,
        parts: NumberLists,
        records: Records,
    },
    /// A phase of an inspection changed the tables; at its end there is something to keep of the FORALL.
    Inspects {
        tables: TableSet,
        kept: Option<Kept>,
    },
    /// A FORALL was executed, with these parts of all arrays; its counts grew.
    Executes {
        parts: NumberLists,
        records: Records,
        count: SiteCount,
    },
    /// A FORALL was refused.
    Refuses {
        refused: Refused,
    },
}

/// Puts what a node has of a moved decomposition in place: its elements and its page; the inspections of
/// FORALLs that have references in it are given up, and its ghosts.
fn take_move(holdings: &mut Holdings, checked: &Checked, decomposition: u32, moved: Moved)
    ensures parts { holdings.new.parts ≡ holdings.old.parts }
    ensures records { holdings.new.records ≡ holdings.old.records }
    ensures elements { holdings.new.elements ≡ slice_set holdings.old.elements decomposition moved.elements }
    ensures pages { holdings.new.pages ≡ slice_set holdings.old.pages decomposition moved.page }
    ensures kept { holdings.new.kept ≡ with_given_up checked.now decomposition holdings.old.kept }
    ensures tables { holdings.new.tables ≡ dropped_in holdings.old.tables decomposition }
{
    let Moved {
        elements,
        pieces: _,
        page,
    } = moved;
    holdings.elements.put(u64::from(decomposition), elements);
    if (decomposition as usize) < holdings.pages.len() {
        holdings.pages.set(decomposition as usize, page);
    }
    if (decomposition as usize) < holdings.tables.len() {
        holdings.tables.drop_table(decomposition);
    }
    holdings.kept.give_up(checked, decomposition);
}

/// Puts what a phase has changed of a node's holdings in place; `site` is the FORALL of the phase.
pub fn take_effect(
    holdings: &mut Holdings,
    end: &mut NodeEnd,
    checked: &Checked,
    site: u32,
    effect: Effect,
)
    ensures holdings { holdings.new ≡ holdings_after checked.now site effect holdings.old }
    ensures end { end.new ≡ end_after site effect end.old }
{
    match effect {
        Effect::Nothing => {}
        Effect::Moves {
            decomposition,
            moved,
            parts,
            records,
        } => {
            holdings.parts = parts;
            holdings.records = records;
            take_move(holdings, checked, decomposition, moved);
        }
        Effect::Inspects { tables, kept } => {
            holdings.tables = tables;
            keep(holdings, site, kept);
        }
        Effect::Executes {
            parts,
            records,
            count,
        } => {
            holdings.parts = parts;
            holdings.records = records;
            put_count(end, site, count);
        }
        Effect::Refuses { refused } => refuse(end, refused),
    }
}

fn put_count(end: &mut NodeEnd, site: u32, count: SiteCount)
    ensures refused { end.new.refused ≡ end.old.refused }
    ensures counts { end.new.counts ≡ slice_set end.old.counts site count }
{
    if (site as usize) < end.counts.len() {
        end.counts.set(site as usize, count);
    }
}

fn refuse(end: &mut NodeEnd, refused: Refused)
    ensures refused { end.new.refused ≡ Some refused }
    ensures counts { end.new.counts ≡ end.old.counts }
{
    end.refused = Some(refused);
}

/// Keeps an inspection of a FORALL, if there is one to keep.
fn keep(holdings: &mut Holdings, site: u32, kept: Option<Kept>)
    ensures kept { holdings.new.kept ≡ kept_with site kept holdings.old.kept }
    ensures parts { holdings.new.parts ≡ holdings.old.parts }
    ensures records { holdings.new.records ≡ holdings.old.records }
    ensures elements { holdings.new.elements ≡ holdings.old.elements }
    ensures pages { holdings.new.pages ≡ holdings.old.pages }
    ensures tables { holdings.new.tables ≡ holdings.old.tables }
{
    match kept {
        Some(kept) => holdings.kept.put(site, Some(kept)),
        None => {}
    }
}
