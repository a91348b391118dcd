ghost use Rattle.std.specs.Prelude.{◌≡◌, ◌++◌, length, IfOk, OnOk};
ghost use Rattle.fd_program.specs.Reports.{executed_part, moved_part, report_line, report_of as the_report};

use crate::append::append_number;
use fd_program::{Checked, SiteCount, SiteCounts};
use fd_words::{Bytes, Memory};
use std::alloc::Global;

/// Appends the line of the FORALL, and how often it was executed and inspected.
fn append_executed(text: &mut Bytes, line: u32, count: SiteCount) -> Result<(), Memory>
    ensures { OnOk result (text.new ≡ text.old ++ executed_part line count) }
{
    append_number(text, b"loop ", line)?;
    append_number(text, b": executed ", count.executed)?;
    append_number(text, b", inspected ", count.inspected)
}

/// Appends how many elements were gathered and scattered.
fn append_moved(text: &mut Bytes, count: SiteCount) -> Result<(), Memory>
    ensures { OnOk result (text.new ≡ text.old ++ moved_part count) }
{
    append_number(text, b", gathered ", count.gathered)?;
    append_number(text, b", scattered ", count.scattered)?;
    text.push(b'\n')
}

/// Appends the line of a FORALL.
fn append_line(text: &mut Bytes, line: u32, count: SiteCount) -> Result<(), Memory>
    ensures { OnOk result (text.new ≡ text.old ++ report_line line count) }
{
    append_executed(text, line, count)?;
    append_moved(text, count)
}

/// One line for each FORALL in the order of the text, with its counts.
pub fn report_of(alloc: Global, checked: &Checked, counts: &SiteCounts) -> Result<Bytes, Memory>
    requires { length counts.now ≡ length checked.now.sites }
    ensures { IfOk result (λ report. report ≡ the_report checked.now.sites counts.now) }
{
    let mut text = Bytes::new(alloc);
    let sites = checked.sites.as_slice();
    let counts = counts.as_slice();
    for place in 0..sites.len() {
        append_line(&mut text, sites[place].at.line, counts[place])?;
    }
    Ok(text)
}
