//! The text of a report behind the lines of the ops.
ghost use Rattle.std.specs.Prelude.{◌≡◌, ◌++◌, OnOk, string_bytes};
ghost use Rattle.ert_program.specs.{Reports.{all_labels, heading, lines_by, lists_text}, Lists.dids_of};

use crate::races::list::ListDone;
use ert_defs::NoMemory;
use ert_ops::Reply;
use ert_script::{LabelMap, write_line};
use std::alloc::AllocError;
use std::fmt::Write;

/// Binds the labels that the lists bound, list after list, behind those of the ops.
pub fn name_all(labels: &mut LabelMap, lists: &[ListDone]) -> Result<(), NoMemory>
    ensures { OnOk result (labels.new ≡ all_labels labels.old (dids_of lists.now)) }
{
    for list in lists {
        labels.bind_all(list.own.pairs())?;
    }
    Ok(())
}

/// Appends the lines of all lists, each under its heading.
pub fn write_lists(
    page: &mut String,
    lists: &[ListDone],
    labels: &LabelMap,
) -> Result<(), AllocError>
    ensures { OnOk result (string_bytes page.new ≡ string_bytes page.old ++ lists_text labels.now 0 (dids_of lists.now)) }
{
    for (number, list) in lists.iter().enumerate() {
        write_heading(page, number)?;
        write_replies(page, &list.replies, labels)?;
    }
    Ok(())
}

/// Appends the line above the lines of a caller's list: caller 0 does the keeper list.
fn write_heading(page: &mut String, number: usize) -> Result<(), AllocError>
    ensures { OnOk result (string_bytes page.new ≡ string_bytes page.old ++ heading number) }
{
    if number == 0 {
        write!(page, "keeper\n")
    } else {
        write!(page, "caller {number}\n")
    }
}

/// Appends the lines of replies.
fn write_replies(page: &mut String, replies: &[Reply], labels: &LabelMap) -> Result<(), AllocError>
    ensures { OnOk result (string_bytes page.new ≡ string_bytes page.old ++ lines_by labels.now replies.now) }
{
    for reply in replies {
        write_line(page, reply, labels)?;
    }
    Ok(())
}
