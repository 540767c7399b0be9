ghost use Rattle.std.specs.Prelude.{◌≡◌, ◌++◌, codes, decimal, OnOk, string_bytes};
ghost use Rattle.ert_world.specs.Counted.{numbers_of};
ghost use Rattle.ert_ops.specs.Counts.{settled_line};
ghost use Rattle.ert_ops.specs.Texts.{◌⋅◌};

use ert_world::Counts;
use std::alloc::AllocError;
use std::fmt::Write;

/// Appends the line that tells how many timers have which status.
pub fn write_settled(page: &mut String, counts: &Counts) -> Result<(), AllocError>
    ensures { OnOk result (string_bytes page.new ≡ string_bytes page.old ++ settled_line (numbers_of counts.now)) }
{
    write_waiting(page, counts)?;
    write_gone(page, counts)
}

// The front of the line.
fn write_waiting(page: &mut String, counts: &Counts) -> Result<(), AllocError>
    ensures { OnOk result (string_bytes page.new
        ≡ string_bytes page.old ++ (codes "settled armed " ⋅ decimal counts.now.armed ⋅ codes " expired " ⋅ decimal counts.now.expired
        ⋅ codes " delivered " ⋅ decimal counts.now.delivered)) }
{
    let Counts {
        armed,
        expired,
        delivered,
        ..
    } = *counts;
    write!(
        page,
        "settled armed {armed} expired {expired} delivered {delivered}"
    )
}

// The end of the line.
fn write_gone(page: &mut String, counts: &Counts) -> Result<(), AllocError>
    ensures { OnOk result (string_bytes page.new
        ≡ string_bytes page.old ++ (codes " dropped " ⋅ decimal counts.now.dropped ⋅ codes " cancelled " ⋅ decimal counts.now.cancelled
        ⋅ codes " orphaned " ⋅ decimal counts.now.orphaned ⋅ codes "\n")) }
{
    let Counts {
        dropped,
        cancelled,
        orphaned,
        ..
    } = *counts;
    write!(
        page,
        " dropped {dropped} cancelled {cancelled} orphaned {orphaned}\n"
    )
}
