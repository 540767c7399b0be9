ghost use Rattle.std.specs.Prelude.{◌≡◌, not, cond, false, Some, None, IfOk, OnOk, OnErr, is_some};
ghost use Rattle.std.specs.BTreeMap as tree;
ghost use Rattle.std.specs.{Option.option_or, Ordering.eq_by_cmp};

use ert_defs::NoMemory;
use std::collections::BTreeMap;

/// Puts a value at a key that has none, and answers whether it did: a key that has a value keeps it.
pub fn put_first<K: Ord + Copy, V: Drop>(
    map: &mut BTreeMap<K, V>,
    key: K,
    value: V,
) -> Result<bool, NoMemory>
    ensures ok { OnOk result ((q : K) → tree.get K.cmp map.new q
        ≡ option_or (tree.get K.cmp map.old q) (cond (eq_by_cmp K.cmp key q) (Some value) None)) }
    ensures put { IfOk result (λ put. put ≡ not (is_some (tree.get K.cmp map.old key))) }
    ensures kept { IfOk result (λ put. put ≡ false → tree.IsUnchanged map.old map.new) }
    ensures err { OnErr result (tree.IsUnchanged map.old map.new) }
{
    if map.contains_key(&key) {
        return Ok(false);
    }
    match map.insert(key, value) {
        Ok(_) => Ok(true),
        Err(_) => Err(NoMemory),
    }
}
