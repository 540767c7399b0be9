ghost use Rattle.atomic_table.specs.Seated.{TableId};
ghost use Rattle.ert_defs.specs.{Settings.any_settings, declared.settings.Settings.Settings};
ghost use Rattle.ert_locks.specs.Names.{any_table};

use std::marker::Brand;

/// The name of one desk: which table it is, and its settings. It has no function.
pub trait DeskName {
    ghost table: { TableId };

    ghost settings: { Settings };
}

impl DeskName for Brand {
    ghost table = { any_table };

    ghost settings = { any_settings };
}
