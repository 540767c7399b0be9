//! Values of format 1 that are migrated to format 2. What is read of scenarios is told by the rows of `examples/messages`.

use ert_scenario::{migrate, read_scenario};
use serde_json::Value;
use std::alloc::Global;
use std::process::Abort;
use std::test::Fail;

/// A text of format 1 in format 2, without the space between its fields.
fn migrated(alloc: Global, text: &str) -> Result<String, Fail> {
    Ok(migrate(alloc, Value::from_str(alloc, text)?)?.to_string(alloc)?)
}

/// Two texts say the same.
fn are_alike(rt: &impl Abort, alloc: Global, race: bool, one: &str, two: &str) -> Result<(), Fail> {
    let one = read_scenario(alloc, one.as_bytes(), race)?;
    let two = read_scenario(alloc, two.as_bytes(), race)?;
    assert!(rt; one.settings == two.settings && one.ops.as_slice() == two.ops.as_slice());
    Ok(())
}

/// Whether a race is wanted, a text of format 1, and the same in format 2.
const MIGRATED: [(bool, &str, &str); 3] = [
    (
        false,
        r#"{"first":[0,0],"format":1,"ops":[]}"#,
        r#"{"first":[0,0],"format":2,"ops":[]}"#,
    ),
    (
        false,
        r#"{"first":[0,0],"format":1,"mode":"no","ops":[["cancel_async",1,0],["cancel",1],["read_async",2,0]]}"#,
        r#"{"first":[0,0],"format":2,"mode":"no","ops":[["cancel_async",1,0,true],["cancel",1],["read_async",2,0,true]]}"#,
    ),
    (
        true,
        r#"{"first":[0,0],"format":1,"ops":[["read_async",1,0]],"race":{"callers":[[["cancel_async",1,0]],[["time"]]],"keeper":[["notify",0]],"turns":1}}"#,
        concat!(
            r#"{"first":[0,0],"format":2,"ops":[["read_async",1,0,true]],"#,
            r#""race":{"callers":[[["cancel_async",1,0,true]],[["time"]]],"keeper":[["notify",0]],"turns":1}}"#
        ),
    ),
];

#[test]
fn migrates(rt: HostRuntime) -> Result<(), Fail> {
    for (race, text, want) in MIGRATED {
        let found = migrated(rt.alloc(), text)?;
        assert!(rt; found.as_str() == want, "{found}, not {want}");
        are_alike(&rt, rt.alloc(), race, text, want)?;
    }
    Ok(())
}
