//! What the worlds and services of the tests are opened with.
use crate::examples::SETTINGS;
use ert_defs::Settings;

/// One of each, with no time correction.
pub(crate) const SMALL: Settings = Settings {
    slots: 1,
    ..SETTINGS
};
